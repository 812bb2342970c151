// A barrier as a table of labels by the players' numbers: whether it tells that no list of pairs completes. It would
// tell too much if it were forgotten that one player of an odd group may be left over.
ghost use Rattle.std.specs.Prelude.{◌≡◌, ◌-◌, ◌&&◌, ◌↔◌, ◌≤◌, ℕ, List, true, All, IsTrue, length, slice_index};
ghost use Rattle.std.specs.List.{list_any};
ghost use Rattle.dual.specs.Matchings.{MakeUp, Completable};
ghost use Rattle.dual.specs.Barriers.{Suits, IsBarrier, group_size, blockers, odd_groups, is_of_odd_group, IsTooNarrow};

use crate::rule::MatchingRule;

// The label of a player, 0 past the table's end.
fn label(labels: &[u16], v: u16) -> u16
    ensures { result ≡ slice_index labels.now v }
{
    let v = usize::from(v);
    if v < labels.len() { labels[v] } else { 0 }
}

fn group_size(labels: &[u16], players: &[u16], group: u16) -> usize
    ensures value { result ≡ group_size players.now (slice_index labels.now) group }
    ensures few { result ≤ length players.now }
{
    players
        .iter()
        .filter(|v| label(labels, **v) == group)
        .count()
}

// How many of the groups from 1 to `most` are of an odd number of players.
fn odd_groups(labels: &[u16], players: &[u16], most: u16) -> usize
    ensures value { result ≡ odd_groups players.now (slice_index labels.now) most }
    ensures few { result ≤ most }
{
    let mut count = 0;
    for below in 0..most {
        count += group_size(labels, players, below + 1) % 2;
    }
    count
}

fn is_of_odd_group(labels: &[u16], players: &[u16], v: u16) -> bool
    ensures { result ≡ is_of_odd_group players.now (slice_index labels.now) v }
{
    let group = label(labels, v);
    group != 0 && group_size(labels, players, group) % 2 == 1
}

// One odd group needs no blocker if one of its players is left over.
fn may_leave_odd<R: MatchingRule>(labels: &[u16], rule: &R, players: &[u16]) -> bool
    ensures { result ≡ list_any (λ v. (R.costs rule.now).may_be_left v
        && is_of_odd_group players.now (slice_index labels.now) v) players.now }
{
    players.iter().any(|v| rule.may_be_left(*v) && is_of_odd_group(labels, players, *v))
}

fn suits<R: MatchingRule>(labels: &[u16], rule: &R, a: u16, b: u16) -> bool
    ensures { IsTrue result ↔ Suits (R.costs rule.now).meets (slice_index labels.now) a b }
{
    let (first, second) = (label(labels, a), label(labels, b));
    !rule.may_meet(a, b) || first == 0 || second == 0 || first == second
}

fn suits_all<R: MatchingRule>(labels: &[u16], rule: &R, a: u16, players: &[u16]) -> bool
    ensures { IsTrue result ↔ All (Suits (R.costs rule.now).meets (slice_index labels.now) a) players.now }
{
    players.iter().all(|b| suits(labels, rule, a, *b))
}

fn are_labelled(labels: &[u16], most: u16, players: &[u16]) -> bool
    ensures { IsTrue result ↔ All (λ v. slice_index labels.now v ≤ most) players.now }
{
    players.iter().all(|v| label(labels, *v) <= most)
}

fn are_apart<R: MatchingRule>(labels: &[u16], rule: &R, players: &[u16]) -> bool
    ensures { IsTrue result ↔ All (λ u. All
        (Suits (R.costs rule.now).meets (slice_index labels.now) u) players.now) players.now }
{
    players.iter().all(|a| suits_all(labels, rule, *a, players))
}

fn is_barrier<R: MatchingRule>(labels: &[u16], most: u16, rule: &R, players: &[u16]) -> bool
    ensures { IsTrue result ↔ IsBarrier (R.costs rule.now).meets players.now (slice_index labels.now) most }
{
    are_labelled(labels, most, players) && are_apart(labels, rule, players)
}

/// Yes if a barrier shows that players are not completable: those with label 0 are the blockers, the others are in
/// groups from 1 to `most`, and more groups are odd than the blockers serve, and one player of an odd group who may be
/// left over. A no says only that this barrier does not show it.
pub fn tells_incompletable<R: MatchingRule>(
    labels: &[u16],
    most: u16,
    rule: &R,
    players: &[u16],
) -> bool
    ensures sound { IsTrue result → ¬ Completable (R.costs rule.now).meets (R.costs rule.now).may_be_left players.now }
    ensures whole { IsTrue result ↔ IsTooNarrow (R.costs rule.now).meets (R.costs rule.now).may_be_left players.now
        (slice_index labels.now) most }
{
    let spare = may_leave_odd(labels, rule, players);
    is_barrier(labels, most, rule, players)
        && group_size(labels, players, 0) + usize::from(spare) < odd_groups(labels, players, most)
}

/// How many players all pairs of players who may meet leave over at least, by a barrier: so many groups more are odd
/// than there are blockers. Labels that are no barrier tell 0.
pub fn least_left<R: MatchingRule>(labels: &[u16], most: u16, rule: &R, players: &[u16]) -> usize
    ensures sound { (pairs : List (ℕ × ℕ)) (out : List ℕ) → MakeUp players.now pairs out
        → All (λ pair. (R.costs rule.now).meets pair.0 pair.1 ≡ true) pairs → result ≤ length out }
    ensures whole { IsBarrier (R.costs rule.now).meets players.now (slice_index labels.now) most
        → result ≡ odd_groups players.now (slice_index labels.now) most - blockers players.now
        (slice_index labels.now) }
    ensures none { ¬ IsBarrier (R.costs rule.now).meets players.now (slice_index labels.now) most → result ≡ 0 }
{
    if !is_barrier(labels, most, rule, players) {
        return 0;
    }
    odd_groups(labels, players, most).saturating_sub(group_size(labels, players, 0))
}
