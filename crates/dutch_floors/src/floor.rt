// The floor of a beginning: a quality that no candidate with this beginning is better than (C.04.3 C.6 to C.19). It is
// asked for at each beginning that a choice comes to, so it takes no memory and looks at each player only a few times.
ghost use Rattle.std.specs.Prelude.{◌≡◌, ◌≤◌, IfOk, ◌||◌, ◌&&◌, ℕ, [], true, filter, length};
ghost use Rattle.dutch_arrangements.specs.Prelude.{Fits};
ghost use Rattle.dutch_arrangements.specs.declared.prefix.Filling.TheVariants.{S2r};
ghost use Rattle.dutch_sequence.specs.declared.numbers.TheConstants.{LIMIT};
ghost use Rattle.dutch_bracket.specs.Prelude as brackets;
ghost use Rattle.dutch_bracket.specs.declared.shaped.ShapedBracket.{ShapedBracket};
ghost use Rattle.dutch_floors.specs.Outlooks.{IsOutlook, best_next_for};
ghost use Rattle.dutch_floors.specs.FloorOf.{AreWants, is_flat, is_known, residents_score, psd_over, more_by, more_in};
ghost use Rattle.dutch_floors.specs.FloorOf.{floor_with, s1_of};
ghost use Rattle.dutch_floors.specs.KnownPairs.{AreKnown, by_seat, number_pairs};
ghost use Rattle.dutch_floors.specs.Missed.{AreMissed};
ghost use Rattle.dutch_floors.specs.Behind.{IsBasisFor, NoneBeats, NoneHasBetterNext};

use crate::colour_floor::{Wants, colour_places, more_missed, wants_in};
use crate::known_pairs::{KnownPairs, PairSums, fill_uneven};
use crate::lonely::{lonely, most_lonely};
use crate::notes::{FloorNotes, FloorQuestion};
use crate::outlook::{Outlook, is_flat};
use dutch_arrangements::{Filling, LIMIT, Numbers, Prefix, Shape};
use dutch_bracket::differences::fill_psd;
use dutch_bracket::quality::{NextValue, Quality, QualityLists, fill_floats};
use dutch_bracket::shaped::ShapedBracket;
use dutch_candidates::fixed_lists::{FixedLists, fill_fixed, fixed_lists, has_s1, is_of_shape};
use dutch_candidates::psd_floor::{FlatShape, is_uniform};
use dutch_sequence::numbers::put_numbered;
use std::alloc::AllocError;
use std::marker::Model;

/// What the floors of a bracket and a shape stand on, read once for a choice.
#[derive(Drop)]
pub struct Floors<'a> {
    shaped: ShapedBracket<'a>,
    // what the next bracket can be at best (C.7)
    outlook: Outlook,
    // there is a resident, and all residents have one score
    flat: bool,
    // all S1 leave moved-down players with the same scores
    uniform: bool,
    // the first S1 (on the heap, as it is large)
    first: Box<Numbers>,
    // how many of the bracket's players want each colour, and how many of them firmly (C.10, C.11)
    wants: Wants,
    firm_wants: Wants,
}

impl<'a> Model for Floors<'a> {
    ghost use Rattle.std.specs.Prelude.{◌≡◌, true, false};
    ghost use Rattle.dutch_arrangements.specs.Prelude.{numbers_from};
    ghost use Rattle.dutch_bracket.specs.Prelude.{IsOf, is_uniform};
    ghost use Rattle.dutch_floors.specs.Behind.{Basis, basis_for};
    ghost use Rattle.dutch_floors.specs.FloorOf.{AreWants, is_flat};
    ghost use Rattle.dutch_floors.specs.Outlooks.{IsOutlookFrom};

    ghost Value = { Basis };

    ghost view = { λ f. basis_for f.shaped f.outlook };

    ghost invariant = { λ f. let context = f.shaped.context.now in (IsOf context.facts context.reached)
        × (IsOutlookFrom f.shaped f.outlook)
        × (f.flat ≡ is_flat context.facts context.reached)
        × (f.uniform ≡ is_uniform context.facts context.reached f.shaped.shape)
        × (f.first.value.items ≡ numbers_from 1 f.shaped.shape.mdps)
        × (AreWants context.facts context.reached f.wants × (f.wants.firm ≡ false))
        × (AreWants context.facts context.reached f.firm_wants × (f.firm_wants.firm ≡ true)) };
}

impl<'a> Floors<'a> {
    /// The floors of a shape.
    #[tactic(auto, using(dutch_candidates::proofs::ShapeNumbers::small_mdps))]
    pub fn by_counts(shaped: &ShapedBracket<'a>) -> Result<Floors<'a>, AllocError>
        ensures { IfOk result (IsBasisFor shaped.now) }
    {
        let context = shaped.context;
        let flat = is_flat(context);
        let mut first = Box::new(context.alloc(), Numbers::new())?;
        put_numbered(1, shaped.shape.mdps, &mut *first);
        Ok(Floors {
            shaped: *shaped,
            outlook: Outlook::by_counts(shaped)?,
            flat,
            uniform: is_uniform(context.rule(), shaped.shape),
            first,
            wants: wants_in(context, false),
            firm_wants: wants_in(context, true),
        })
    }

    /// The shape, and that the bracket has room for it.
    #[tactic(auto, using(dutch_candidates::proofs::ShapeNumbers::small_pairs))]
    fn shape(&self) -> Shape
        ensures value { result ≡ self.now.shape }
        ensures fits { Fits (brackets.frame_of self.now.facts self.now.reached) self.now.shape }
        ensures of { brackets.IsOf self.now.facts self.now.reached }
        ensures small { result.pairs ≤ LIMIT }
    {
        self.shaped.shape
    }

    /// How many of the bracket's players want each colour, or only firmly.
    fn wants(&self, firm: bool) -> Wants
        ensures counted { AreWants self.now.facts self.now.reached result }
        ensures firm { result.firm ≡ firm }
    {
        if firm { self.firm_wants } else { self.wants }
    }

    /// Fills a list with the PSD that S1 gives if all residents have one score.
    #[tactic(auto, using(dutch_candidates::proofs::ShapeNumbers::has_room))]
    fn fill_psd_with(&self, s1: &[u16], psd: &mut Numbers)
        requires few { length s1.now ≤ self.now.shape.mdps }
        ensures { psd.new.items ≡ brackets.psd_with self.now.facts self.now.reached self.now.shape
            (residents_score self.now.facts self.now.reached) s1.now }
    {
        let context = self.shaped.context;
        let flat = FlatShape {
            rule: context.rule(),
            shape: self.shape(),
            score: context.score(context.reached().mdps() as u16 + 1),
        };
        flat.fill_psd(s1, psd)
    }

    /// S1 of a beginning; the first one, if none is chosen.
    fn s1<'b>(&'b self, prefix: &'b Prefix<'_>) -> &'b [u16]
        ensures { result.now ≡ s1_of self.now prefix.now }
    {
        match prefix.filling() {
            Filling::ChoosingS1 => return &self.first,
            Filling::S2 | Filling::S2r => return prefix.s1(),
        }
    }

    /// The best that the next bracket can be behind arrangements with an S1 (C.7).
    fn best_next_for(&self, s1: &[u16]) -> &NextValue
        ensures { result.now ≡ best_next_for self.now.facts self.now.reached self.now.shape self.now.outlook s1.now }
    {
        self.outlook.best_for(&self.shaped, s1)
    }

    /// The best that the next bracket can be behind arrangements with the first S1 (C.7).
    pub fn best_next_for_first(&self) -> &NextValue {
        self.best_next_for(&self.first)
    }

    /// Yes if the best that the next bracket can be behind a beginning (C.7) is known, and is no better than a quality
    /// says.
    fn awaits_no_better(&self, prefix: &Prefix<'_>, quality: &Quality) -> bool
        ensures of { brackets.IsOf self.now.facts self.now.reached }
        ensures outlook { IsOutlook self.now.facts self.now.reached self.now.lower self.now.shape self.now.outlook }
        ensures none { result ≡ true →
            ((brackets.has_s1 prefix.now.filling || brackets.is_uniform self.now.facts self.now.reached
            self.now.shape) ≡ true)
            × brackets.IsNoBetter (best_next_for self.now.facts self.now.reached self.now.shape self.now.outlook
            (s1_of self.now prefix.now))
            (brackets.next_in (brackets.quality_in quality.now)) }
    {
        let uniform = self.uniform;
        (has_s1(prefix.filling()) || uniform)
            && self
                .best_next_for(self.s1(prefix))
                .is_no_better_than(quality)
    }

    /// Yes if no candidate with a beginning has a better value of the next bracket than a quality says (C.7). A no says
    /// nothing.
    pub fn has_no_better_next(&self, prefix: &Prefix<'_>, quality: &Quality) -> bool
        ensures { result ≡ true → NoneHasBetterNext self.now prefix.now (brackets.next_in
            (brackets.quality_in quality.now)) }
    {
        self.awaits_no_better(prefix, quality)
    }

    /// How many players outside of the known pairs miss their preference at least, by counts (C.10); or how many a firm
    /// one (C.11).
    fn more_missed(&self, known: &KnownPairs, firm: bool) -> usize
        requires known { AreKnown self.now known.now }
        ensures value { result ≡ more_in firm self.now.facts self.now.reached self.now.shape
            (brackets.seated_so self.now.facts self.now.reached
            (by_seat self.now.reached.seats known.now.pairs.items) []) }
        ensures few { result ≤ LIMIT }
        ensures room { length known.now.pairs.items ≤ LIMIT }
    {
        let places = colour_places(self.shaped.context, self.shape(), known.pairs.len());
        more_missed(self.wants(firm), known.sums.wants(firm), places)
    }

    /// Yes if lonely players may make a difference: S1R is chosen, it is not yet plain that the floor loses, and with
    /// the most lonely players that there can be it may lose. (A no leaves them out: the floor is lower then than it
    /// can be, and not wrong.)
    fn counts_lonely(
        &self,
        asked: &FloorQuestion<'_, '_>,
        lists: &FixedLists<'_>,
        missed: usize,
    ) -> bool
        ensures { result ≡ true → asked.now.prefix.now.filling ≡ S2r }
    {
        match asked.prefix.filling() {
            Filling::ChoosingS1 | Filling::S2 => false,
            Filling::S2r => {
                let most = most_lonely(self.shaped.context, self.shaped.shape, lists);
                missed <= usize::from(asked.most)
                    && missed.saturating_add(most) >= usize::from(asked.fewest)
            }
        }
    }

    /// How many players outside of the known pairs miss their preference at least (C.10). Once S1R is chosen, lonely
    /// players count too.
    #[tactic(auto, using(crate::proofs::FloorLemmas::counts_few, crate::proofs::FloorLemmas::lonely_too))]
    fn more_by(
        &self,
        asked: &FloorQuestion<'_, '_>,
        lists: &FixedLists<'_>,
        notes: &mut FloorNotes,
    ) -> usize
        requires known { AreKnown self.now notes.old.known }
        requires pairs { notes.old.known.pairs.items ≡ number_pairs lists.now }
        requires few { brackets.HasFewPairs lists.now }
        ensures value { result ≤ more_by asked.now.prefix.now.filling self.now lists.now }
        ensures few { result ≤ LIMIT }
        ensures known { notes.new.known ≡ notes.old.known }
    {
        let more = self.more_missed(&notes.known, false);
        let missed = usize::from(notes.known.sums.missed) + more;
        if !self.counts_lonely(asked, lists, missed) {
            return more;
        }
        more.max(lonely(self.shaped.context, self.shape(), lists, &mut notes.lonely))
    }

    /// What the known pairs add up to, with so many more who miss their preference outside of them (C.10), and with
    /// those who miss a strong one there, by counts (C.11).
    fn sums_with(&self, known: &KnownPairs, more: usize) -> PairSums
        requires known { AreKnown self.now known.now }
        requires more { more ≤ LIMIT }
        ensures { AreMissed self.now more (by_seat self.now.reached.seats known.now.pairs.items) result }
    {
        let more_strong = self.more_missed(known, true) as u16;
        let mut sums = known.sums;
        sums.missed += more as u16;
        sums.strong += more_strong;
        sums
    }

    /// Fills in the PSD (C.6): by S1 if all residents have one score, else by what is fixed.
    #[tactic(auto, unfolding(crate::specs::FloorOf::psd_over))]
    fn fill_psd(&self, s1: &[u16], lists: &FixedLists<'_>, room: &mut QualityLists)
        requires few { length s1.now ≤ self.now.shape.mdps }
        requires pairs { brackets.HasFewPairs lists.now }
        ensures { room.new.quality.psd.items
            ≡ psd_over self.now s1.now (brackets.fixed self.now.facts self.now.reached lists.now) }
    {
        if self.flat {
            self.fill_psd_with(s1, &mut room.quality.psd);
        } else {
            let context = self.shaped.context;
            fill_fixed(context, lists, &mut room.seated);
            fill_psd(context.field(), &room.seated, &mut room.quality.psd);
        }
    }

    /// Fills in the PSD and the value of the next bracket (C.6, C.7).
    fn fill_first(&self, s1: &[u16], lists: &FixedLists<'_>, room: &mut QualityLists)
        requires few { length s1.now ≤ self.now.shape.mdps }
        requires pairs { brackets.HasFewPairs lists.now }
        ensures psd { (brackets.quality_in room.new.quality).psd
            ≡ psd_over self.now s1.now (brackets.fixed self.now.facts self.now.reached lists.now) }
        ensures next { brackets.next_in (brackets.quality_in room.new.quality)
            ≡ best_next_for self.now.facts self.now.reached self.now.shape self.now.outlook s1.now }
    {
        self.fill_psd(s1, lists, room);
        let next = self.best_next_for(s1);
        room.quality.put_next(next.pairs, &next.psd);
    }

    /// Fills in the items that pairs add up to (C.8 to C.19).
    fn fill_counted(&self, lists: &FixedLists<'_>, sums: PairSums, room: &mut QualityLists)
        requires pairs { brackets.HasFewPairs lists.now }
        requires uneven { sums.uneven
            ≡ length (filter (brackets.is_uneven self.now.facts)
            (brackets.all_pairs self.now.reached.seats lists.now)) }
        ensures { (more : ℕ) → AreMissed self.now more (brackets.all_pairs self.now.reached.seats lists.now) sums
            → brackets.quality_in room.new.quality ≡ floor_with self.now more
            (brackets.quality_in room.old.quality) lists.now }
    {
        room.quality.wide_differences = sums.wide;
        room.quality.third_colours = sums.third;
        room.quality.missed_preferences = sums.missed;
        room.quality.missed_strong = sums.strong;
        fill_uneven(self.shaped.context, lists, sums.uneven, &mut room.seated);
        fill_floats(self.shaped.context.field(), &room.seated, &mut room.quality);
    }

    /// Yes if a floor of a beginning is known: the shape has room for its lists, and S1 is chosen, unless it does not
    /// matter which one is.
    #[tactic(auto, using(crate::proofs::FloorLemmas::known_pairs, crate::proofs::FloorLemmas::s1_few))]
    fn is_known(&self, prefix: &Prefix<'_>, lists: &FixedLists<'_>) -> bool
        requires lists { lists.now ≡ brackets.fixed_lists prefix.now }
        ensures known { result ≡ is_known self.now prefix.now }
        ensures of { brackets.IsOf self.now.facts self.now.reached }
        ensures outlook { IsOutlook self.now.facts self.now.reached self.now.lower self.now.shape self.now.outlook }
        ensures pairs { is_known self.now prefix.now ≡ true → brackets.HasFewPairs (brackets.fixed_lists prefix.now) }
        ensures few { is_known self.now prefix.now ≡ true → length (s1_of self.now prefix.now) ≤ self.now.shape.mdps }
    {
        is_of_shape(self.shape(), lists) && (has_s1(prefix.filling()) || self.uniform)
    }

    /// Fills a quality that no candidate with a beginning is better than. A no says that none is known.
    pub fn floor(
        &self,
        asked: &FloorQuestion<'_, '_>,
        notes: &mut FloorNotes,
        room: &mut QualityLists,
    ) -> bool
        requires known { AreKnown self.now notes.old.known }
        ensures floor { result ≡ true → NoneBeats self.now asked.now.prefix.now (brackets.quality_in room.new.quality) }
        ensures known { AreKnown self.now notes.new.known }
    {
        let prefix = asked.prefix;
        let lists = fixed_lists(prefix);
        if !self.is_known(prefix, &lists) {
            return false;
        }
        notes
            .known
            .go_to(self.shaped.context, &lists, &mut notes.lonely);
        let more = self.more_by(asked, &lists, notes);
        let sums = self.sums_with(&notes.known, more);
        self.fill_first(self.s1(prefix), &lists, room);
        self.fill_counted(&lists, sums, room);
        true
    }

    /// Fills the quality that a first pass has as its target, if all residents have one score: what a beginning with
    /// the first S1 promises up to C.11. A no says that there is none. Any target may be taken: what is chosen among
    /// the candidates that it is not better than is what is chosen among all.
    #[tactic(auto, using(dutch_candidates::proofs::ShapeNumbers::first_length))]
    pub fn fill_target(&self, notes: &mut FloorNotes, room: &mut QualityLists) -> bool {
        if !self.flat {
            return false;
        }
        let lists = FixedLists {
            s1: &[],
            s2: &[],
            s1r: &[],
            s2r: &[],
        };
        notes.known.clear();
        let more = self.more_missed(&notes.known, false);
        let sums = self.sums_with(&notes.known, more);
        self.fill_first(&self.first, &lists, room);
        self.fill_counted(&lists, sums, room);
        room.quality.put_worst_floats();
        true
    }
}
