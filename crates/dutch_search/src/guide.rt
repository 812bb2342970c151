// How candidates are drawn within floors of both kinds (C.04.3 B.8). Where pairs are weighed, a walk goes in turns
// of few steps: it goes along with the witness, a matching that no candidate is known to be better than, and where it
// leaves that, a floor by weight is asked for.
ghost use Rattle.std.specs.Prelude.{◌≡◌, ◌+◌, ◌-◌, ◌<◌, ◌≤◌, [], None, min};
ghost use Rattle.std.specs.Option.{ForSome};
ghost use Rattle.std.specs.Result.{MatchResult};
ghost use Rattle.dutch_arrangements.specs.Prelude.{MatchStep, Spends};
ghost use Rattle.dutch_passes.specs.Prelude.{Draws, ListsFor, PassesPruned, target_in, incumbent_in};
ghost use Rattle.dutch_search.specs.Searching.{AreFor};
ghost use Rattle.dutch_sequence.specs.declared.numbers.TheConstants.{LIMIT};
ghost use Rattle.dutch_weight_floors.specs.Prelude.{HasBar};

use crate::bars::bars_of;
use crate::both::{BothFloors, is_weighed};
use crate::last_beginning::{LastBeginning, WalkNotes};
use crate::skipper::Skipper;
use cheapest::LOOKS_IN_A_STEP;
use dutch_arrangements::{Budget, Step, Stopped};
use dutch_bracket::spending::spend;
use dutch_candidates::greatest::Lister;
use dutch_candidates::narrowed::NarrowedRule;
use dutch_candidates::wish::Wish;
use dutch_listing::BoundWithRoom;
use dutch_passes::{Guide, PassSoFar, Workroom};
use dutch_weight_floors::asking::{Bars, FloorRequest};
use dutch_weight_floors::weight_floor::WeightFloors;
use std::alloc::AllocError;

// The most steps of a turn. With fewer, walks take more time for as many steps; with more, they go on far beyond the
// witness before a floor is asked for.
const MOST_STEPS: u64 = 16;

impl<'a> BothFloors<'a> {
    /// The steps of a turn: all that are left. With floors by weight they are few, since after each turn the beginning
    /// that a walk has come to is compared with the witness.
    fn turn(&self, budget: &Budget) -> Budget
        ensures used { result.used ≡ 0 }
        ensures limit { result.limit ≤ budget.now.limit - budget.now.used }
        ensures some { budget.now.used < budget.now.limit → 0 < result.limit }
    {
        let left = budget.limit - budget.used;
        let limit = if self.weights.is_some() {
            left.min(self.steps.max(1))
        } else {
            left
        };
        Budget { used: 0, limit }
    }

    /// Tells which beginnings a pass may skip, by the bars of its target and of its incumbent.
    fn skipper<'k>(&'k self, so_far: PassSoFar<'k, 'k>, bars: &'k Bars) -> Skipper<'k, 'k>
        requires known { AreFor so_far.pass.now self.now }
        requires target { HasBar self.now.weights.value (target_in so_far.pass.now.target) bars.now.target }
        requires incumbent { HasBar self.now.weights.value (incumbent_in so_far.incumbent.now) bars.now.incumbent }
        ensures { result.so_far ≡ so_far.entry }
    {
        Skipper {
            so_far,
            counts: &self.counts,
            weights: &*self.weights,
            bars,
        }
    }

    /// Keeps floors by weight, the first by a cheapest matching of the bracket. It fills the target; a no says that
    /// there is none.
    fn weigh_by(
        &mut self,
        weights: WeightFloors<'a>,
        work: &mut Workroom<WalkNotes>,
        budget: &mut Budget,
    ) -> Result<bool, Stopped>
        requires none { self.old.weights.value ≡ None }
        ensures context { self.new.shaped.context.now ≡ self.old.shaped.context.now }
        ensures shape { self.new.shaped.shape ≡ self.old.shaped.shape }
        ensures counts { self.new.counts ≡ self.old.counts }
        ensures weights { ForSome self.new.weights.value (λ w. w ≡ weights.entry) }
        ensures stopped { MatchResult result (λ _. Unit {0}) (λ _. budget.new.used ≡ budget.new.limit) }
        ensures spends { Spends budget.old budget.new }
    {
        let mut weights = weights;
        let found = weights.ask_first(budget)?;
        *self.weights = Some(weights);
        Ok(self.fill_target(&found, work))
    }

    /// What follows a turn that found nothing, if steps are left: if pairs are weighed, a floor by weight is asked for
    /// where the walk leaves the witness.
    fn go_on(&mut self, notes: &WalkNotes, bars: &Bars, budget: &mut Budget) -> Result<(), Stopped>
        ensures stopped { MatchResult result
            (λ _. budget.old.used < budget.old.limit)
            (λ _. budget.new.used ≡ budget.new.limit) }
        ensures context { self.new.shaped.context.now ≡ self.old.shaped.context.now }
        ensures shape { self.new.shaped.shape ≡ self.old.shaped.shape }
        ensures counts { self.new.counts ≡ self.old.counts }
        ensures weights { self.new.weights.value ≡ self.old.weights.value }
        ensures spends { Spends budget.old budget.new }
    {
        if budget.used == budget.limit {
            return Err(Stopped);
        }
        match &mut *self.weights {
            Some(weights) => {
                let LastBeginning { scope, pairs } = &notes.last;
                let before = budget.used;
                weights.ask_more(&FloorRequest { scope, pairs }, bars, budget)?;
                self.steps = steps_after(self.steps, budget.used - before);
                Ok(())
            }
            None => Ok(()),
        }
    }
}

/// The steps of the turn after one of so many: one if a question was asked, and else twice as many, up to a bound. (A walk
/// goes on where it stood before each turn, which takes time and no steps.)
fn steps_after(steps: u64, asked: u64) -> u64 {
    if asked > 0 {
        1
    } else {
        steps.saturating_mul(2).min(MOST_STEPS)
    }
}

/// How many pairs were weighed of a bracket of so many players: one of each two classes; where there are no weights, all
/// may have been.
fn pairs_weighed(weighed: &Result<Option<WeightFloors<'_>>, AllocError>, count: usize) -> u64
    requires { count ≤ LIMIT }
{
    match weighed {
        Ok(Some(weights)) => weights.pairs_of_classes(),
        _ => (count * count) as u64,
    }
}

/// Counts the steps of a turn, up to the limit.
fn count(turn: &Budget, budget: &mut Budget)
    ensures counts { budget.new.used ≡ min (budget.old.used + turn.now.used) budget.old.limit }
    ensures spends { Spends budget.old budget.new }
{
    budget.used = budget.used.saturating_add(turn.used).min(budget.limit);
}

/// Draws the next candidate that is not known to be pruned, in one turn.
fn draw_once(
    skipper: &Skipper<'_, '_>,
    lister: &mut Lister<'_, NarrowedRule<'_>>,
    work: &mut Workroom<WalkNotes>,
    turn: &mut Budget,
) -> Step<()>
    requires lists { ListsFor skipper.now.so_far.pass.now lister.old.listing }
    requires shape { lister.old.listing.shape ≡ skipper.now.so_far.pass.now.shaped.shape }
    ensures answer { MatchStep result
        (λ _. Draws skipper.now.so_far lister.old lister.new)
        (PassesPruned skipper.now.so_far lister.old.listing.coming [])
        (PassesPruned skipper.now.so_far lister.old.listing.coming lister.new.listing.coming
        × (turn.new.used ≡ turn.new.limit)) }
    ensures frame { lister.new.listing.frame ≡ lister.old.listing.frame }
    ensures shape { lister.new.listing.shape ≡ lister.old.listing.shape }
    ensures rule { lister.new.listing.rule ≡ lister.old.listing.rule }
    ensures spends { Spends turn.old turn.new }
{
    let mut within = BoundWithRoom {
        bound: skipper,
        room: work,
    };
    lister
        .listing
        .put_next_within(&mut within, &mut lister.drawn, turn)
}

impl<'a> Guide for BothFloors<'a> {
    type Notes = WalkNotes;

    ghost use Rattle.std.specs.Prelude.{◌≡◌};
    ghost use Rattle.std.specs.Option.{ForSome};
    ghost use Rattle.dutch_floors.specs.Behind.{IsBasis};
    ghost use Rattle.dutch_weight_floors.specs.Prelude.{AreOf};

    ghost knows = { λ floors context shape wish. (floors.shaped.context.now ≡ context) × ((floors.shaped.shape ≡ shape)
        × (IsBasis context.facts context.reached context.lower shape floors.counts
        × ForSome floors.weights.value (AreOf context shape wish))) };

    fn draw(
        &mut self,
        so_far: PassSoFar<'_, '_>,
        lister: &mut Lister<'_, NarrowedRule<'_>>,
        work: &mut Workroom<WalkNotes>,
        budget: &mut Budget,
    ) -> Result<bool, Stopped> {
        // (more floors change nothing of the weights, and so of the bars)
        let bars = bars_of(so_far, &*self.weights);
        loop {
            let mut turn = self.turn(budget);
            let step = draw_once(&self.skipper(so_far, &bars), lister, work, &mut turn);
            count(&turn, budget);
            match step {
                Step::Found(()) => return Ok(true),
                Step::End => return Ok(false),
                Step::Undecided => self.go_on(&work.notes, &bars, budget)?,
            }
        }
    }

    fn can_weigh(&self, next: bool) -> bool {
        is_weighed(self.shaped.context, next)
    }

    fn weigh(
        &mut self,
        wish: Option<Wish>,
        next: bool,
        work: &mut Workroom<WalkNotes>,
        budget: &mut Budget,
    ) -> Result<bool, Stopped> {
        let (context, shape) = (self.shaped.context, self.shaped.shape);
        // (weights are large: the ones before are dropped first)
        *self.weights = None;
        if is_weighed(context, next) {
            let weighed = WeightFloors::weigh(context, shape, wish, next);
            spend(
                pairs_weighed(&weighed, context.len()) / LOOKS_IN_A_STEP,
                budget,
            )?;
            // (where memory is refused or a weight does not fit, no floors are found)
            if let Ok(Some(weights)) = weighed {
                return self.weigh_by(weights, work, budget);
            }
        }
        Ok(self.fill_target(&None, work))
    }
}
