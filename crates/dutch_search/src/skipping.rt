// What a pass over the candidates of a shape may skip (C.04.3 B.8), specified by the candidates that are pruned.
//
// A candidate is pruned if it cannot be chosen, if it does not grant what is wished, or if it loses: the target of the
// pass is better than it, or it is not better than the incumbent. The candidates are listed by the rules of the
// bracket, narrowed to the wish; if a beginning rules the wish out, no candidate with it grants the wish. The floor of
// a beginning is a quality that no candidate with it is better than: if the floor loses, they all lose. With a wish, a
// floor that holds only for those that grant it is enough, as floors by weight do.
ghost use Rattle.std.specs.Prelude.{◌≡◌, true, false};
ghost use Rattle.dutch_bracket.specs.Prelude.{quality_here, HasNoBetter, is_better, next_in, quality_in};
ghost use Rattle.dutch_floors.specs.KnownPairs.{AreKnown};
ghost use Rattle.dutch_passes.specs.Prelude.{Loses, LosesIfOpen, is_pruned_by};
ghost use Rattle.dutch_search.specs.Skips.{HasNoBetterNext, IsBehindTarget, IsBehindIncumbent, OfEach, OfEachHere, OfEachWith, Weighs};
ghost use Rattle.dutch_search.specs.Skips.{context_of};

use crate::last_beginning::WalkNotes;
use crate::skipper::Skipper;
use dual::Wide;
use dutch_arrangements::{Exchange, Prefix};
use dutch_bracket::quality::Quality;
use dutch_floors::notes::FloorQuestion;
use dutch_listing::Bound;
use dutch_passes::{Workroom, is_barred, is_barred_with, loses};

impl<'a, 'k> Skipper<'a, 'k> {
    /// Fills a quality that no candidate with a beginning is better than. A no says that none is known.
    fn fill_floor(&self, asked: &FloorQuestion<'_, '_>, work: &mut Workroom<WalkNotes>) -> bool
        requires known { AreKnown self.now.counts.now work.old.notes.floors.known }
        ensures floor { result ≡ true → OfEach self.now asked.now.prefix.now
            (λ a. is_better (quality_here (context_of self.now) a) (quality_in work.new.room.quality) ≡ false) }
        ensures known { AreKnown self.now.counts.now work.new.notes.floors.known }
    {
        self.counts
            .floor(asked, &mut work.notes.floors, &mut work.room)
    }

    /// Yes if by counts no candidate with a beginning has a better value of the next bracket than a quality says (C.7).
    /// A no says nothing.
    fn has_no_better_next(&self, prefix: &Prefix<'_>, quality: &Quality) -> bool
        ensures { result ≡ true → OfEach self.now prefix.now
            (λ a. HasNoBetter (quality_here (context_of self.now) a) (next_in (quality_in quality.now))) }
    {
        self.counts.has_no_better_next(prefix, quality)
    }

    /// How many miss their preference in the target and in the incumbent (C.10): the lesser number, and the
    /// greater one.
    fn missed_bars(&self) -> (u16, u16) {
        let target = self.so_far.pass.target.quality();
        let incumbent = self.so_far.incumbent.best();
        match (target, incumbent) {
            (Some(target), Some(incumbent)) => {
                let (target, incumbent) = (
                    target.missed_preferences,
                    incumbent.quality.missed_preferences,
                );
                (target.min(incumbent), target.max(incumbent))
            }
            (Some(target), None) => (target.missed_preferences, target.missed_preferences),
            (None, Some(incumbent)) => {
                let incumbent = &incumbent.quality;
                (incumbent.missed_preferences, incumbent.missed_preferences)
            }
            (None, None) => (0, u16::MAX),
        }
    }

    /// Yes if all candidates with a beginning lose by counts. A no says nothing.
    #[tactic(auto, using(dutch_passes::proofs::TargetLemmas::floor_loses))]
    fn loses_by_counts(&self, prefix: &Prefix<'_>, work: &mut Workroom<WalkNotes>) -> bool
        requires known { AreKnown self.now.counts.now work.old.notes.floors.known }
        ensures loses { result ≡ true → OfEach self.now prefix.now (Loses self.now.so_far) }
        ensures known { AreKnown self.now.counts.now work.new.notes.floors.known }
    {
        let (fewest, most) = self.missed_bars();
        let asked = FloorQuestion {
            prefix,
            fewest,
            most,
        };
        if !self.fill_floor(&asked, work) {
            return false;
        }
        loses(
            &work.room.quality,
            &self.so_far.pass.target,
            self.so_far.incumbent,
        )
    }

    /// Yes if all candidates have one value of the next bracket, which is known, and is not better than a quality says
    /// (C.7). A no says nothing.
    #[tactic(auto, using(crate::proofs::NextAtAll::none_better_at_all))]
    fn has_no_better_at_all(&self, quality: &Quality) -> bool
        ensures { result ≡ true → OfEachHere self.now
            (λ a. HasNoBetter (quality_here (context_of self.now) a) (next_in (quality_in quality.now))) }
    {
        match &self.so_far.pass.next {
            Some(value) => value.is_no_better_than(quality),
            None => false,
        }
    }

    /// Yes if C.7 needs no further look: the weights tell of the next bracket, all candidates have one value of it that
    /// is not better than a quality says, or by counts no candidate with a beginning has a better one.
    fn knows_next(&self, prefix: &Prefix<'_>, quality: &Quality) -> bool
        ensures { result ≡ true
            → OfEach self.now prefix.now (HasNoBetterNext self.now (next_in (quality_in quality.now))) }
    {
        match self.weights {
            Some(weights) if weights.counts_next() => true,
            _ => self.has_no_better_at_all(quality) || self.has_no_better_next(prefix, quality),
        }
    }

    /// Yes if the target is better than every candidate with a beginning that weighs so much at least. The target is
    /// better than a candidate that weighs more, if that has a higher PSD or no better value of the next bracket (C.6,
    /// C.7).
    fn is_behind_target(&self, prefix: &Prefix<'_>, least: Wide) -> bool
        ensures { result ≡ true
            → OfEach self.now prefix.now (λ a. Weighs self.now least a → IsBehindTarget self.now a) }
    {
        let Some(bar) = &self.bars.target else {
            return false;
        };
        let Some(target) = self.so_far.pass.target.quality() else {
            return false;
        };
        bar.is_passed(least) && (bar.is_above(least) || self.knows_next(prefix, target))
    }

    /// Yes if no candidate with a beginning that weighs so much at least is better than the incumbent. One that
    /// weighs no less than that is not better, if it has a higher PSD or no better value of the next bracket (C.6,
    /// C.7).
    fn is_behind_incumbent(&self, prefix: &Prefix<'_>, least: Wide) -> bool
        ensures { result ≡ true
            → OfEach self.now prefix.now (λ a. Weighs self.now least a → IsBehindIncumbent self.now a) }
    {
        let Some(bar) = &self.bars.incumbent else {
            return false;
        };
        let Some(best) = self.so_far.incumbent.best() else {
            return false;
        };
        bar.is_above(least) || (bar.is_reached(least) && self.knows_next(prefix, &best.quality))
    }

    /// Yes if all candidates with a beginning lose by the floor by weight at a place. A no says nothing.
    fn loses_by(&self, place: usize, prefix: &Prefix<'_>) -> bool
        ensures { result ≡ true → OfEach self.now prefix.now (LosesIfOpen self.now.so_far) }
    {
        let Some(weights) = self.weights else {
            return false;
        };
        let Some(least) = weights.least_by(place, prefix) else {
            return false;
        };
        self.is_behind_incumbent(prefix, least) || self.is_behind_target(prefix, least)
    }

    /// Yes if all candidates with a beginning lose by any of the floors by weight. A no says nothing.
    fn loses_by_weight(&self, prefix: &Prefix<'_>) -> bool
        ensures { result ≡ true → OfEach self.now prefix.now (LosesIfOpen self.now.so_far) }
    {
        let Some(weights) = self.weights else {
            return false;
        };
        // (the floor that was asked for last is the most likely to tell)
        let count = weights.len();
        for before in 0..count {
            if self.loses_by(count - 1 - before, prefix) {
                return true;
            }
        }
        false
    }

    /// Yes if all candidates with a beginning and such an S1R lose by the floor by weight at a place. A no says
    /// nothing.
    fn loses_with(&self, place: usize, prefix: &Prefix<'_>, exchange: &Exchange<'_>) -> bool
        ensures { result ≡ true → OfEachWith self.now prefix.now exchange.now (LosesIfOpen self.now.so_far) }
    {
        let Some(weights) = self.weights else {
            return false;
        };
        let Some(least) = weights.least_with(place, prefix, exchange) else {
            return false;
        };
        self.is_behind_incumbent(prefix, least) || self.is_behind_target(prefix, least)
    }

    /// Yes if all candidates with a beginning and such an S1R lose by a floor that counts the order of S1R. A no says
    /// nothing.
    fn loses_by_order(&self, prefix: &Prefix<'_>, exchange: &Exchange<'_>) -> bool
        ensures { result ≡ true → OfEachWith self.now prefix.now exchange.now (LosesIfOpen self.now.so_far) }
    {
        let Some(weights) = self.weights else {
            return false;
        };
        for place in 0..weights.len() {
            if self.loses_with(place, prefix, exchange) {
                return true;
            }
        }
        false
    }
}

impl<'a, 'k> Bound for Skipper<'a, 'k> {
    type Room = Workroom<WalkNotes>;

    ghost use Rattle.dutch_bracket.specs.Prelude.{frame_here, numbers_meet, number_may_be_left};
    ghost use Rattle.dutch_candidates.specs.Wishes.{left_narrowed, meets_narrowed};
    ghost use Rattle.dutch_floors.specs.KnownPairs.{AreKnown};
    ghost use Rattle.dutch_passes.specs.Prelude.{is_pruned_by};
    ghost use Rattle.dutch_search.specs.Skips.{context_of};

    ghost frame = { λ s. frame_here (context_of s) };

    ghost shape = { λ s. s.so_far.pass.now.shaped.shape };

    ghost meets = { λ s. meets_narrowed s.so_far.pass.now.wish
        (numbers_meet (context_of s).facts (context_of s).reached) };

    ghost may_be_left = { λ s. left_narrowed s.so_far.pass.now.wish
        (number_may_be_left (context_of s).facts (context_of s).reached) };

    ghost is_pruned = { λ s. is_pruned_by s.so_far };

    ghost Holds = { λ s work. AreKnown s.counts.now work.notes.floors.known };

    fn start(&self, work: &mut Workroom<WalkNotes>) {
        let pass = self.so_far.pass;
        work.notes.floors.clear(pass.shaped.context.len());
    }

    #[tactic(auto, using(dutch_choice::proofs::Listings::narrowed_inside, dutch_passes::proofs::TargetLemmas::unwished_is_pruned, dutch_passes::proofs::TargetLemmas::loser_is_pruned, dutch_passes::proofs::TargetLemmas::loser_if_open_is_pruned), unfolding(dutch_bracket::specs::Brackets::candidates_of))]
    fn cannot_win(&self, prefix: &Prefix<'_>, work: &mut Workroom<WalkNotes>) -> bool {
        if is_barred(self.so_far.pass, prefix) {
            return true;
        }
        if self.weights.is_some() {
            work.notes.last.note(prefix);
        }
        // (with no target and no incumbent no quality loses)
        if self.so_far.pass.target.quality().is_none() && self.so_far.incumbent.best().is_none() {
            return false;
        }
        self.loses_by_weight(prefix) || self.loses_by_counts(prefix, work)
    }

    #[tactic(auto, using(dutch_choice::proofs::Listings::narrowed_inside, dutch_passes::proofs::TargetLemmas::unwished_is_pruned, dutch_passes::proofs::TargetLemmas::loser_if_open_is_pruned), unfolding(dutch_bracket::specs::Brackets::candidates_of))]
    fn cannot_win_with(
        &self,
        prefix: &Prefix<'_>,
        exchange: &Exchange<'_>,
        _work: &mut Workroom<WalkNotes>,
    ) -> bool {
        if is_barred_with(self.so_far.pass, exchange) {
            return true;
        }
        if self.so_far.pass.target.quality().is_none() && self.so_far.incumbent.best().is_none() {
            return false;
        }
        self.loses_by_order(prefix, exchange)
    }
}
