// What a matching of a bracket's players is to the bracket (C.04.3 B.1 to B.3): its pairs, their shape, and the players
// that they leave over, who have to be paired out in the penultimate bracket (C.4).
ghost use Rattle.std.specs.Prelude.{◌≡◌, ◌≤◌, IfOk, filter, length, true};
ghost use Rattle.dutch_arrangements.specs.Prelude.{MatchDrawn, Spends, leaves_one};
ghost use Rattle.dutch_sequence.specs.declared.numbers.TheConstants.{LIMIT};
ghost use Rattle.dutch_bracket.specs.Prelude.{Decides, IsOf, number_may_be_left};
ghost use Rattle.dutch_choice.specs.Mates.{goes_first, has_mate, mate_of, matched_shape, may_leave, numbers_unmated};

use crate::players::Players;
use dutch_arrangements::{Budget, Rule, Shape, Stopped, numbered_from};
use dutch_bracket::{ByNumber, Seats};
use dutch_completion::eligible::{can_complete, fill_with_lower};
use std::alloc::AllocError;

/// The mate of a number by a list of partners: whoever is in no pair of the bracket is their own mate.
fn mate(players: &Players<'_>, partners: &[Option<u16>], a: u16) -> u16
    ensures { result ≡ mate_of players.now partners.now a }
{
    match partners.get(usize::from(a)) {
        Some(Some(b)) if players.are_pair(a, *b) => *b,
        _ => a,
    }
}

/// How many of some numbers have mates.
fn count_mated(players: &Players<'_>, partners: &[Option<u16>], numbers: &[u16]) -> usize
    ensures value { result ≡ length (filter (has_mate players.now partners.now) numbers.now) }
    ensures few { result ≤ length numbers.now }
{
    numbers
        .iter()
        .filter(|a| mate(players, partners, **a) != **a)
        .count()
}

/// How many of some numbers have mates behind them.
fn count_first(players: &Players<'_>, partners: &[Option<u16>], numbers: &[u16]) -> usize
    ensures value { result ≡ length (filter (goes_first players.now partners.now) numbers.now) }
    ensures few { result ≤ length numbers.now }
{
    numbers
        .iter()
        .filter(|a| **a < mate(players, partners, **a))
        .count()
}

/// The shape of the pairs of a matching.
pub(crate) fn matched_shape(players: &Players<'_>, partners: &[Option<u16>]) -> Shape
    ensures value { result ≡ matched_shape players.now partners.now }
    ensures sound { IsOf players.now.facts players.now.reached }
    ensures few { length players.now.reached.seats ≤ LIMIT }
{
    let moved_down = players.rule.reached.mdps();
    let mdps = count_mated(players, partners, &numbered_from(1, moved_down));
    let residents = numbered_from(moved_down + 1, players.rule.len() - moved_down);
    Shape {
        pairs: mdps + count_first(players, partners, &residents),
        mdps,
    }
}

/// The numbers of the bracket that are in no pair of a matching.
fn numbers_unmated(players: &Players<'_>, partners: &[Option<u16>]) -> Result<Vec<u16>, AllocError>
    ensures { IfOk result (λ alone. alone.items ≡ numbers_unmated players.now partners.now) }
{
    let numbers = numbered_from(1, players.rule.len());
    numbers
        .iter()
        .copied()
        .filter(|a| mate(players, partners, *a) == *a)
        .collect(players.alloc)
}

fn leaves_one(rule: ByNumber<'_>, alone: &[u16]) -> bool
    ensures { result ≡ leaves_one (number_may_be_left rule.entry.field.now rule.entry.reached.now) alone.now }
{
    match alone {
        [] => true,
        [a] => rule.last_ok(*a),
        _ => false,
    }
}

/// C.4 counts in a penultimate bracket, C.2 in one that ends the round. An ordinary one may leave anybody over.
fn may_leave(players: &Players<'_>, alone: &[u16], budget: &mut Budget) -> Result<bool, Stopped>
    requires { length alone.now ≤ length players.now.reached.seats }
    ensures answer { Decides result (may_leave players.now alone.now) (budget.new.used ≡ budget.new.limit) }
    ensures spends { Spends budget.old budget.new }
{
    if players.rule.reached.kind().is_penultimate() {
        let mut all = Seats::new();
        fill_with_lower(players.rule.reached, alone, players.lower, &mut all);
        return can_complete(players.alloc, players.rule.field, &all, budget);
    }
    Ok(!players.rule.reached.kind().ends_round() || leaves_one(players.rule, alone))
}

/// A no may also say that memory was refused.
#[tactic(auto, using(crate::proofs::MatchedCandidates::numbers_unmated_few))]
pub(crate) fn can_be_chosen(
    players: &Players<'_>,
    partners: &[Option<u16>],
    budget: &mut Budget,
) -> Result<bool, Stopped>
    ensures answer { MatchDrawn result (may_leave players.now (numbers_unmated players.now partners.now) ≡ true) (Unit {0})
        (budget.new.used ≡ budget.new.limit) }
    ensures spends { Spends budget.old budget.new }
{
    let Ok(alone) = numbers_unmated(players, partners) else {
        return Ok(false);
    };
    may_leave(players, &alone, budget)
}
