// Which candidates of a bracket can be chosen (C.04.3 C.4). A search of few steps tells if
// seats can be paired out, else a matching, else the whole search.
ghost use Rattle.std.specs.Prelude.{◌≡◌, ◌+◌, ◌≤◌, ◌++◌, length, map};
ghost use Rattle.dutch_sequence.specs.declared.numbers.TheConstants.{LIMIT};
ghost use Rattle.dutch_arrangements.specs.Prelude.{down, MatchFound, Spends};
ghost use Rattle.dutch_bracket.specs.Seated.{seat_of};
ghost use Rattle.dutch_bracket.specs.Brackets.{completable};
ghost use Rattle.dutch_bracket.specs.InContext.{can_be_chosen_here, frame_here};
ghost use Rattle.dutch_bracket.specs.Stops.{Decides};

use crate::completion::completes;
use crate::matched::decided_by_matching;
use crate::seats::seats;
use dutch_arrangements::{Budget, Candidate, Stopped};
use dutch_bracket::context::Context;
use dutch_bracket::reached::{Reached, Seats, push_all};
use dutch_bracket::seated::push_seats;
use dutch_bracket::spending::at_most;
use dutch_bracket::tuning::FIRST_STEPS;
use dutch_player::Field;
use std::alloc::Global;

/// Fills a list with the seats of numbers of a bracket, and then lower ones.
pub fn fill_with_lower(reached: &Reached, numbers: &[u16], lower: &[u16], seats: &mut Seats)
    requires { length numbers.now + length lower.now ≤ LIMIT }
    ensures { seats.new.items ≡ map (seat_of reached.now.seats) numbers.now ++ lower.now }
{
    seats.clear();
    push_seats(reached.seats(), numbers, seats);
    push_all(lower, seats);
}

/// None says that the few steps did not suffice.
fn decided_in_few_steps(
    field: &Field,
    players: &[u16],
    budget: &mut Budget,
) -> Result<Option<bool>, Stopped>
    requires few { length players.now ≤ LIMIT }
    ensures answer { MatchFound result (λ yes. yes ≡ completable field.now players.now) (Unit {0})
        (budget.new.used ≡ budget.new.limit) }
    ensures spends { Spends budget.old budget.new }
{
    let mut few = at_most(FIRST_STEPS * players.len() as u64, budget);
    let answer = completes(players, &seats(field), &mut few).decided();
    budget.used = few.used;
    match answer {
        Ok(decided) => Ok(Some(decided)),
        Err(Stopped) if budget.used == budget.limit => Err(Stopped),
        Err(Stopped) => Ok(None),
    }
}

fn decided_by_search(field: &Field, players: &[u16], budget: &mut Budget) -> Result<bool, Stopped>
    requires few { length players.now ≤ LIMIT }
    ensures answer { Decides result (completable field.now players.now) (budget.new.used ≡ budget.new.limit) }
    ensures spends { Spends budget.old budget.new }
{
    completes(players, &seats(field), budget).decided()
}

/// Yes if the seats can be paired out (A.9): a search of few steps is asked, then a matching if it can be had, and if
/// neither tells it, the whole search.
pub fn can_complete(
    alloc: Global,
    field: &Field,
    players: &[u16],
    budget: &mut Budget,
) -> Result<bool, Stopped>
    requires few { length players.now ≤ LIMIT }
    ensures answer { Decides result (completable field.now players.now) (budget.new.used ≡ budget.new.limit) }
    ensures spends { Spends budget.old budget.new }
{
    if let Some(decided) = decided_in_few_steps(field, players, budget)? {
        return Ok(decided);
    }
    if let Some(decided) = decided_by_matching(alloc, field, players, budget)? {
        return Ok(decided);
    }
    decided_by_search(field, players, budget)
}

/// Yes if those whom a candidate leaves over can be paired out with all lower players (A.9). The list is filled anew
/// with them all.
pub fn leaves_completable(
    context: &Context<'_>,
    candidate: &Candidate,
    left: &mut Seats,
    budget: &mut Budget,
) -> Result<bool, Stopped>
    requires { length candidate.now.down ≤ length context.now.reached.seats }
    ensures answer { Decides result
        (completable context.now.facts
        (map (seat_of context.now.reached.seats) candidate.now.down ++ context.now.lower))
        (budget.new.used ≡ budget.new.limit) }
    ensures spends { Spends budget.old budget.new }
{
    fill_with_lower(context.reached(), candidate.down(), context.lower(), left);
    can_complete(context.alloc(), context.field(), left, budget)
}

/// The candidate can be chosen (C.4): in the penultimate bracket only if those whom it leaves over can be paired out
/// with all lower players, for whom a list is lent.
#[tactic(auto, using(dutch_bracket::proofs::DownLemmas::down_few))]
pub fn can_be_chosen(
    context: &Context<'_>,
    candidate: &Candidate,
    left: &mut Seats,
    budget: &mut Budget,
) -> Result<bool, Stopped>
    requires left { candidate.now.down ≡ down (frame_here context.now) candidate.now.lists }
    ensures answer { Decides result (can_be_chosen_here context.now candidate.now.lists)
        (budget.new.used ≡ budget.new.limit) }
    ensures spends { Spends budget.old budget.new }
{
    if !context.reached().kind().is_penultimate() {
        return Ok(true);
    }
    leaves_completable(context, candidate, left, budget)
}
