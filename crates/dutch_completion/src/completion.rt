// Completion, article A.9: whether players can be paired so that at most one is left out, specified by a list of pairs.
//
// The search works in one list. Each later player in turn is swapped to the front, behind whom those before them keep
// their order. Once none of them has served, the list is turned back. So a level of the search keeps no list of its
// own.
ghost use Rattle.std.specs.Prelude.{◌≡◌, ◌+◌, ◌-◌, ◌*◌, ◌<◌, ◌≤◌, ◌&&◌, true, false, [], ◌++◌, take, drop};
ghost use Rattle.std.specs.Prelude.{length, slice_index, if◌then◌else◌};
ghost use Rattle.dutch_bracket.specs.Completion.{Completable, most, SpendsAtMost, IsStopped, Takes, MatchAnswer};
ghost use Rattle.dutch_bracket.specs.Completion.{most_of_bye};
ghost use Rattle.dutch_bracket.specs.CompletionSearch.{Searched, can_go, left_over, some_partner};
ghost use Rattle.dutch_bracket.specs.declared.answer.Answer.TheVariants.{No};

use dutch_arrangements::{Budget, LIMIT, Numbers, Rule, Stopped};
use dutch_bracket::Answer;
use dutch_bracket::reached::push_all;
use dutch_bracket::spending::step;

/// Yes if some list of pairs of players who may meet leaves out at most one of the players, who may be left out (A.9).
/// A step is one partner or the bye tried for one player. It takes no memory.
pub fn completes<R: Rule>(players: &[u16], rule: &R, budget: &mut Budget) -> Answer
    requires few { length players.now ≤ LIMIT }
    ensures answer { MatchAnswer result
        (Completable (R.meets rule.now) (R.may_be_left rule.now) players.now)
        (¬ Completable (R.meets rule.now) (R.may_be_left rule.now) players.now)
        (IsStopped (most (length players.now) true) budget.old budget.new) }
    ensures steps { SpendsAtMost (most (length players.now) true) budget.old budget.new }
    ensures taken { Takes result (length players.now) (length players.now) budget.old budget.new }
{
    let mut all = Numbers::new();
    push_all(players, &mut all);
    can_pair(rule, &mut all, true, budget)
}

/// Puts the first of a list behind the others.
fn put_last(list: &mut [u16])
    ensures { list.new ≡ drop 1 list.old ++ take 1 list.old }
{
    if !list.is_empty() {
        list.rotate_left(1);
    }
}

/// The first of some players, and whether one of them all may be left out.
#[derive(Clone, Copy)]
struct First {
    player: u16,
    bye: bool,
}

/// Nobody is left out, or one at most, where one may be (`bye`). If the players cannot be paired so, they stand as
/// before.
#[cycle(search)]
fn can_pair<R: Rule>(rule: &R, players: &mut [u16], bye: bool, budget: &mut Budget) -> Answer
    ensures searched { Searched result
        (can_go (R.meets rule.now) (R.may_be_left rule.now) bye (length players.old) players.old)
        (most (length players.old) bye)
        (length players.old) (if bye then length players.old else 0) budget.old budget.new }
    ensures kept { result ≡ No → players.new ≡ players.old }
{
    let Some((first, later)) = players.split_first_mut() else {
        return Answer::Yes;
    };
    // Of an odd number somebody is left out.
    if !bye && later.len() % 2 == 0 {
        return Answer::No;
    }
    let first = First {
        player: *first,
        bye,
    };
    match pair_first(rule, first, later, budget) {
        Answer::No => leave_first(rule, first, later, budget),
        answer => answer,
    }
}

/// Each later player comes to the front in turn. If none serves, they stand as before.
#[cycle(search)]
fn pair_first<R: Rule>(rule: &R, first: First, later: &mut [u16], budget: &mut Budget) -> Answer
    ensures searched { Searched result
        (some_partner (R.meets rule.now first.player)
        (can_go (R.meets rule.now) (R.may_be_left rule.now) first.bye (length later.old - 1)) [] later.old)
        (length later.old * (1 + most (length later.old - 1) first.bye))
        (length later.old + 1) (length later.old) budget.old budget.new }
    ensures kept { result ≡ No → later.new ≡ later.old }
{
    for place in 0..later.len() {
        later.swap(0, place);
        match pair_with(rule, first, later, budget) {
            Answer::No => {}
            answer => return answer,
        }
    }
    put_last(later);
    Answer::No
}

#[cycle(search)]
fn pair_with<R: Rule>(rule: &R, first: First, later: &mut [u16], budget: &mut Budget) -> Answer
    requires some { 0 < length later.old }
    ensures searched { Searched result
        (R.meets rule.now first.player (slice_index later.old 0) && can_go (R.meets rule.now)
        (R.may_be_left rule.now) first.bye (length later.old - 1) (drop 1 later.old))
        (1 + most (length later.old - 1) first.bye)
        (length later.old + 1) 1 budget.old budget.new }
    ensures kept { result ≡ No → later.new ≡ later.old }
{
    let Ok(()) = step(budget) else {
        return Answer::Undecided;
    };
    if !rule.may_meet(first.player, later[0]) {
        return Answer::No;
    }
    can_pair(rule, &mut later[1..], first.bye, budget)
}

#[cycle(search)]
fn leave_first<R: Rule>(rule: &R, first: First, later: &mut [u16], budget: &mut Budget) -> Answer
    ensures searched { Searched result
        (left_over first.bye (R.may_be_left rule.now) first.player
        && can_go (R.meets rule.now) (R.may_be_left rule.now) false (length later.old) later.old)
        (most_of_bye (most (length later.old) false) first.bye)
        (length later.old + 1) (if first.bye then 1 else 0) budget.old budget.new }
    ensures kept { result ≡ No → later.new ≡ later.old }
{
    if !first.bye {
        return Answer::No;
    }
    let Ok(()) = step(budget) else {
        return Answer::Undecided;
    };
    if !rule.last_ok(first.player) {
        return Answer::No;
    }
    can_pair(rule, later, false, budget)
}
