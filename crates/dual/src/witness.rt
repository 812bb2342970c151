// A witness: pairs, and whoever is left over, that show that players can be paired out.
ghost use Rattle.std.specs.Prelude.{◌≡◌, ◌+◌, ◌*◌, ◌↔◌, ◌==◌, All, IsTrue, true, length, count_by};
ghost use Rattle.std.specs.Option.{option_to_list};
ghost use Rattle.dual.specs.Counts.{times, times_named, StandsAsOften};
ghost use Rattle.dual.specs.Matchings.{MakeUp, Completable, IsWitness};

use crate::rule::MatchingRule;

fn times(players: &[u16], v: u16) -> usize
    ensures { result ≡ times v players.now }
{
    players.iter().filter(|u| **u == v).count()
}

// How often a player stands in some pairs and among those left over.
fn times_named(pairs: &[(u16, u16)], left: &[u16], v: u16) -> usize
    ensures { result ≡ times_named v pairs.now left.now }
{
    let first = pairs.iter().filter(|pair| pair.0 == v).count();
    let second = pairs.iter().filter(|pair| pair.1 == v).count();
    first + second + times(left, v)
}

fn are_as_many(pairs: &[(u16, u16)], left: &[u16], players: &[u16]) -> bool
    ensures { IsTrue result ↔ (2 * length pairs.now + length left.now ≡ length players.now) }
{
    left.len() <= players.len()
        && (players.len() - left.len()) % 2 == 0
        && (players.len() - left.len()) / 2 == pairs.len()
}

#[tactic(auto, unfolding(crate::specs::Counts::StandsAsOften))]
fn stands_as_often(pairs: &[(u16, u16)], left: &[u16], players: &[u16], v: u16) -> bool
    ensures { IsTrue result ↔ StandsAsOften players.now pairs.now left.now v }
{
    times_named(pairs, left, v) == times(players, v)
}

fn stand_as_often(pairs: &[(u16, u16)], left: &[u16], players: &[u16]) -> bool
    ensures { IsTrue result ↔ All (StandsAsOften players.now pairs.now left.now) players.now }
{
    players
        .iter()
        .all(|v| stands_as_often(pairs, left, players, *v))
}

#[tactic(auto, using(crate::proofs::Witnesses::make_up, crate::proofs::Witnesses::as_often))]
fn make_up(pairs: &[(u16, u16)], left: &[u16], players: &[u16]) -> bool
    ensures { IsTrue result ↔ MakeUp players.now pairs.now left.now }
{
    are_as_many(pairs, left, players) && stand_as_often(pairs, left, players)
}

fn may_meet_either<R: MatchingRule>(rule: &R, a: u16, b: u16) -> bool
    ensures { IsTrue result ↔ (((R.costs rule.now).meets a b ≡ true) × ((R.costs rule.now).meets b a ≡ true)) }
{
    rule.may_meet(a, b) && rule.may_meet(b, a)
}

fn may_all_meet<R: MatchingRule>(rule: &R, pairs: &[(u16, u16)]) -> bool
    ensures { IsTrue result ↔ All (λ pair. ((R.costs rule.now).meets pair.0 pair.1 ≡ true)
        × ((R.costs rule.now).meets pair.1 pair.0 ≡ true)) pairs.now }
{
    pairs
        .iter()
        .all(|pair| may_meet_either(rule, pair.0, pair.1))
}

fn may_be_left<R: MatchingRule>(rule: &R, left: &[u16]) -> bool
    ensures { IsTrue result ↔ All (λ v. (R.costs rule.now).may_be_left v ≡ true) left.now }
{
    left.iter().all(|v| rule.may_be_left(*v))
}

/// Yes if pairs, and whoever is left over, show that players are completable: each player stands in them as often as in
/// the list, the two of each pair may meet, whoever comes first, and whoever is left over may be.
pub fn tells_completable<R: MatchingRule>(
    pairs: &[(u16, u16)],
    left: Option<u16>,
    rule: &R,
    players: &[u16],
) -> bool
    ensures sound { IsTrue result → Completable (R.costs rule.now).meets (R.costs rule.now).may_be_left players.now }
    ensures whole { IsTrue result ↔ IsWitness (R.costs rule.now).meets
        (R.costs rule.now).may_be_left players.now pairs.now left }
{
    let left = left.as_slice();
    make_up(pairs, left, players) && may_all_meet(rule, pairs) && may_be_left(rule, left)
}
