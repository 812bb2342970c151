// What the next bracket can be (C.04.3 C.7), remembered by downfloaters, specified by the value of each list and by
// which lists are kept.
//
// Candidates of a bracket that leave over the same players have one value, so it is looked for once. The values of the
// last 64 lists that were used are kept, in a cache that is made once for a bracket. If it cannot grow, this is noted,
// and the value is looked for each time.
ghost use Rattle.std.specs.Prelude.{◌≡◌, ◌≤◌, true, false, [], length, IfOk, ◌⊎◌, if◌then◌else◌, Some, None};
ghost use Rattle.std.specs.Map.{lookup};
ghost use Rattle.std.specs.Result.{MatchResult};
ghost use Rattle.lru.specs.LruCache.{lru_cache, promoted, put_entries};
ghost use Rattle.dutch_bracket.specs.declared.reached.BracketKind.TheVariants.{Ordinary};
ghost use Rattle.dutch_bracket.specs.Prelude.{IsOf, IsNext, IsOfBracket, AreLeft, quality, quality_in, next_in};
ghost use Rattle.dutch_bracket.specs.Prelude.{quality_here};
ghost use Rattle.dutch_passes.specs.Remembered.{IsKeptAfter, IsLook, IsUsed, LooksBelow, Recalls, is_kept, is_key};
ghost use Rattle.dutch_passes.specs.Remembered.{value_below};
ghost use Rattle.dutch_passes.specs.Passes.{IsHere};
ghost use Rattle.dutch_arrangements.specs.Prelude.{Spends};

use crate::guide::{Guide, Workroom};
use crate::incumbent::Incumbent;
use dutch_arrangements::{Budget, Candidate, Numbers, Stopped};
use dutch_bracket::context::Context;
use dutch_bracket::fault::PairFault;
use dutch_bracket::quality::{NextValue, Quality, QualityLists, fill_quality};
use dutch_bracket::reached::{BracketKind, Reached, copied};
use dutch_choice::lookahead::{BracketAboveGroup, value_below};
use dutch_player::Field;
use lru::LruCache;
use std::alloc::Global;
use std::marker::Model;
use std::num::NonZeroUsize;

/// The most values that are kept.
const MOST: usize = 64;

/// What a look at the next bracket gives.
#[derive(Drop)]
pub enum Look {
    /// The most pairs, and the least PSD for them, the highest difference first (in half points).
    Value { pairs: usize, psd: Numbers },
    /// The budget's limit was reached first.
    Undecided,
}

/// The values that are kept, by the numbers of the downfloaters.
type Values = LruCache<Numbers, NextValue>;

/// The values of the next bracket for downfloaters of one ordinary bracket, of which the last used are kept.
#[derive(Drop)]
pub struct LookAhead<'a> {
    // for matchings of the next bracket
    alloc: Global,
    field: &'a Field,
    reached: &'a Reached,
    next: &'a [u16],
    values: Values,
    // memory was refused for a value
    is_short: bool,
}

impl<'a> Model for LookAhead<'a> {
    ghost use Rattle.dutch_passes.specs.Remembered.{Remembered, AreValues, lists_kept};

    ghost Value = { Remembered };

    ghost view = { λ a. record {
      facts = a.field.now;
      reached = a.reached.now;
      next = a.next.now;
      kept = lists_kept a.values.entries;
      is_short = a.is_short;
    } };

    ghost invariant = { λ a. AreValues a.field.now a.reached.now a.next.now a.values };
}

/// An empty cache.
fn no_values(alloc: Global) -> Result<Values, PairFault>
    ensures { IfOk result (λ values. values ≡ lru_cache [] 64) }
{
    let most = NonZeroUsize::new(MOST).unwrap();
    Ok(LruCache::new(alloc, most)?)
}

/// Puts the value that is kept for downfloaters into a quality, with no copy between. It is the last used value then. A
/// no says that none is kept.
fn put_remembered(values: &mut Values, down: &Numbers, quality: &mut Quality) -> bool
    ensures put { lookup (is_key down.now) values.old.entries
        ≡ (if result then Some (next_in (quality_in quality.new)) else None) }
    ensures kept { values.new ≡ lru_cache (promoted (is_key down.now) values.old.entries) values.old.cap }
{
    let Some(value) = values.get(down) else {
        return false;
    };
    quality.put_next(value.pairs, &value.psd);
    true
}

/// Keeps a value for downfloaters. If memory is refused, nothing changes, and this is noted.
fn keep(values: &mut Values, down: Numbers, value: NextValue, is_short: &mut bool)
    ensures { ((values.new ≡ lru_cache (put_entries is_key values.old down value) values.old.cap)
        × (is_short.new ≡ is_short.old))
        ⊎ ((values.new ≡ values.old) × (is_short.new ≡ true)) }
{
    match values.put(down, value) {
        Ok(_) => {}
        Err(_) => *is_short = true,
    }
}

impl<'a> LookAhead<'a> {
    /// A look-ahead from an ordinary bracket of a field to the next lower scoregroup, with no value kept.
    pub fn new(
        alloc: Global,
        field: &'a Field,
        reached: &'a Reached,
        next: &'a [u16],
    ) -> Result<LookAhead<'a>, PairFault>
        requires of { IsOf field.now reached.now }
        requires ordinary { reached.now.kind ≡ Ordinary }
        requires next { IsNext field.now reached.now next.now }
        ensures { IfOk result (λ ahead. ahead
            ≡ record { facts = field.now; reached = reached.now; next = next.now; kept = []; is_short = false }) }
    {
        Ok(LookAhead {
            alloc,
            field,
            reached,
            next,
            values: no_values(alloc)?,
            is_short: false,
        })
    }

    /// Puts what the next bracket can be for downfloaters for whom no value is kept into a quality. (Apart from its
    /// caller, which runs once a candidate: most values are kept.)
    #[inline(never)]
    fn look_for(
        &mut self,
        down: &Numbers,
        quality: &mut Quality,
        budget: &mut Budget,
    ) -> Result<(), Stopped>
        requires unknown { is_kept down.now.items self.old.kept ≡ false }
        requires down { AreLeft self.old.reached down.now.items }
        ensures answer { MatchResult result
            (λ _. next_in (quality_in quality.new)
            ≡ value_below self.old.facts self.old.reached self.old.next down.now.items)
            (λ _. budget.new.used ≡ budget.new.limit) }
        ensures kept { MatchResult result (λ _. IsUsed down.now.items self.old self.new) (λ _. self.new ≡ self.old) }
        ensures spends { Spends budget.old budget.new }
    {
        let above = BracketAboveGroup {
            alloc: Some(self.alloc),
            field: self.field,
            reached: self.reached,
            next: self.next,
        };
        let value = value_below(&above, down, budget)?;
        quality.put_next(value.pairs, &value.psd);
        let key = copied(down);
        keep(&mut self.values, key, value, &mut self.is_short);
        Ok(())
    }

    /// What the next bracket can be for downfloaters, by their numbers in the bracket. A value that is kept takes no
    /// step. If memory is refused, the value is not kept, which `is_short` tells from then on.
    pub fn value(&mut self, down: &[u16], budget: &mut Budget) -> Look
        requires down { AreLeft self.old.reached down.now }
        ensures answer { IsLook (value_below self.old.facts self.old.reached self.old.next down.now)
            ((is_kept down.now self.old.kept ≡ false) × (budget.new.used ≡ budget.new.limit)) result }
        ensures free { is_kept down.now self.old.kept ≡ true → budget.new.used ≡ budget.old.used }
        ensures kept { IsKeptAfter down.now self.old self.new result }
        ensures spends { Spends budget.old budget.new }
    {
        // (the bracket tells that they are few)
        let _reached = self.reached;
        let key = copied(down);
        let mut quality = Quality::default();
        if self.put_next(&key, &mut quality, budget).is_err() {
            return Look::Undecided;
        }
        Look::Value {
            pairs: quality.next_pairs(),
            psd: quality.next_psd,
        }
    }

    /// Puts the value that is kept for downfloaters into a quality. A no says that none is kept.
    fn put_kept(&mut self, down: &Numbers, quality: &mut Quality) -> bool
        ensures { Recalls result (next_in (quality_in quality.new)) down.now.items self.old self.new }
    {
        put_remembered(&mut self.values, down, quality)
    }

    /// Puts what the next bracket can be for downfloaters into a quality. A value that is kept takes no step.
    fn put_next(
        &mut self,
        down: &Numbers,
        quality: &mut Quality,
        budget: &mut Budget,
    ) -> Result<(), Stopped>
        requires down { AreLeft self.old.reached down.now.items }
        ensures answer { MatchResult result
            (λ _. next_in (quality_in quality.new)
            ≡ value_below self.old.facts self.old.reached self.old.next down.now.items)
            (λ _. (is_kept down.now.items self.old.kept ≡ false) × (budget.new.used ≡ budget.new.limit)) }
        ensures free { is_kept down.now.items self.old.kept ≡ true → budget.new.used ≡ budget.old.used }
        ensures kept { MatchResult result (λ _. IsUsed down.now.items self.old self.new) (λ _. self.new ≡ self.old) }
        ensures spends { Spends budget.old budget.new }
    {
        if self.put_kept(down, quality) {
            return Ok(());
        }
        self.look_for(down, quality, budget)
    }

    /// Fills the quality of a candidate of the bracket. A value that is kept takes no step.
    #[tactic(auto, using(dutch_bracket::proofs::NextBrackets::left_by_candidate), unfolding(dutch_bracket::specs::NextBracket::quality, dutch_bracket::specs::Quality::quality_with))]
    fn fill_quality(
        &mut self,
        candidate: &Candidate,
        room: &mut QualityLists,
        budget: &mut Budget,
    ) -> Result<(), Stopped>
        requires candidate { IsOfBracket self.old.facts self.old.reached candidate.now }
        ensures answer { MatchResult result
            (λ _. quality_in room.new.quality ≡ quality self.old.facts self.old.reached self.old.next candidate.now)
            (λ _. budget.new.used ≡ budget.new.limit) }
        ensures free { is_kept candidate.now.down self.old.kept ≡ true → budget.new.used ≡ budget.old.used }
        ensures kept { MatchResult result
            (λ _. IsUsed candidate.now.down self.old self.new)
            (λ _. self.new ≡ self.old) }
        ensures spends { Spends budget.old budget.new }
    {
        let (field, reached) = (self.field, self.reached);
        self.put_next(&candidate.down, &mut room.quality, budget)?;
        fill_quality(field, reached.seats(), candidate, room);
        Ok(())
    }

    /// Yes if memory was refused for a value, so that it was not kept.
    pub fn is_short(&self) -> bool
        ensures { result ≡ self.now.is_short }
    {
        self.is_short
    }

    /// How many values are kept.
    pub fn len(&self) -> usize
        ensures len { result ≡ length self.now.kept }
        ensures most { result ≤ 64 }
    {
        self.values.len()
    }
}

/// The look-ahead of a bracket above all lower seats: one for an ordinary bracket, and none for another kind.
pub fn look_below<'a>(context: &'a Context<'a>) -> Result<Option<LookAhead<'a>>, PairFault>
    ensures { IfOk result (LooksBelow context.now) }
{
    match context.reached().kind() {
        BracketKind::Ordinary => {
            let alloc = context.alloc();
            let look = LookAhead::new(alloc, context.field(), context.reached(), context.next())?;
            Ok(Some(look))
        }
        _ => Ok(None),
    }
}

/// What a pass works with from one candidate to the next. (What is large of it is on the heap.)
#[derive(Drop)]
pub struct PassState<'a, G: Guide> {
    /// What the next bracket can be (C.7), in an ordinary bracket, with the values that were found.
    pub look: Option<LookAhead<'a>>,
    /// Where the quality of a candidate is worked out; lent to the guide for its own questions.
    pub work: Box<Workroom<G::Notes>>,
    /// The best candidate so far, and in the end what is chosen.
    pub incumbent: Incumbent,
    /// What draws the candidates.
    pub guide: Box<G>,
}

/// Fills the quality of a candidate above all lower seats, by the look-ahead of its bracket.
#[tactic(auto, using(dutch_bracket::proofs::NextGroups::is_next, dutch_bracket::proofs::NextGroups::quality_at), unfolding(dutch_bracket::specs::NextBracket::quality, dutch_bracket::specs::Quality::quality_with))]
pub(crate) fn judge_candidate<G: Guide>(
    context: &Context<'_>,
    candidate: &Candidate,
    state: &mut PassState<'_, G>,
    budget: &mut Budget,
) -> Result<(), Stopped>
    requires candidate { IsHere context.now candidate.now }
    requires look { LooksBelow context.now state.old.look }
    ensures answer { MatchResult result
        (λ _. quality_in state.new.work.value.room.quality ≡ quality_here context.now candidate.now.lists)
        (λ _. budget.new.used ≡ budget.new.limit) }
    ensures look { LooksBelow context.now state.new.look }
    ensures incumbent { state.new.incumbent ≡ state.old.incumbent }
    ensures guide { state.new.guide ≡ state.old.guide }
    ensures spends { Spends budget.old budget.new }
{
    let room = &mut state.work.room;
    match &mut state.look {
        Some(look) => look.fill_quality(candidate, room, budget),
        None => {
            room.quality.put_next(0, &[]);
            fill_quality(context.field(), context.reached().seats(), candidate, room);
            Ok(())
        }
    }
}
