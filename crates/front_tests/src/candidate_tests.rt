// The listings of small brackets: under limits that rise by one they take as many steps, a listing begins behind a
// cursor, and a bound is asked.
ghost use Rattle.std.specs.Prelude.{◌≡◌, ◌≤◌};
ghost use Rattle.dutch_order.specs.Prelude.{Fits};

use crate::rules::{AMPLE, Free, raised};
use dutch_order as order;
use dutch_order::{Bound, Bracket, Budget, Candidates, Cursor, Prefix, Rule, Shape, Step};
use std::alloc::Global;
use std::test::Fail;

// The four lists and the downfloaters of a candidate, one after another.
fn numbers_of(alloc: Global, candidate: &order::Candidate) -> Result<Vec<u16>, Fail> {
    let mut numbers = Vec::new(alloc);
    for list in [
        candidate.s1(),
        candidate.s2(),
        candidate.s1r(),
        candidate.s2r(),
        candidate.down(),
    ] {
        numbers.extend_from_slice(list)?;
    }
    Ok(numbers)
}

// The numbers of all candidates, where the limit starts at `limit` and rises by one after each Undecided, and the steps
// that were used.
fn listing(
    alloc: Global,
    mut candidates: Candidates<'_, Free>,
    limit: u64,
) -> Result<(Vec<u16>, u64), Fail> {
    let mut budget = Budget { limit, used: 0 };
    let mut numbers = Vec::new(alloc);
    for _turn in 0..100_000u32 {
        match candidates.next(&mut budget) {
            Step::Found(candidate) => {
                numbers.extend_from_slice(&numbers_of(alloc, &candidate)?)?;
            }
            Step::End => break,
            Step::Undecided => {
                if !raised(&mut budget) {
                    break;
                }
            }
        }
    }
    Ok((numbers, budget.used))
}

// Limits that rise from 0 must give the same candidates as ample steps, and in as many steps.
fn are_listed(alloc: Global, bracket: &Bracket, shape: Shape, numbers: &[u16]) -> Result<bool, Fail>
    requires { Fits bracket.now shape }
{
    let (ample, used) = listing(alloc, Candidates::new(bracket, shape, &Free), AMPLE)?;
    let (raised, used_again) = listing(alloc, Candidates::new(bracket, shape, &Free), 0)?;
    Ok(ample.as_slice() == numbers && raised.as_slice() == numbers && used == used_again)
}

const MOVED_DOWN: [u16; 72] = [
    1, 2, 5, 6, 3, 4, 1, 2, 6, 5, 3, 4, 1, 3, 5, 6, 2, 4, 1, 3, 6, 5, 2, 4, 2, 3, 5, 6, 1, 4, 2, 3,
    6, 5, 1, 4, 1, 4, 5, 6, 2, 3, 1, 4, 6, 5, 2, 3, 2, 4, 5, 6, 1, 3, 2, 4, 6, 5, 1, 3, 3, 4, 5, 6,
    1, 2, 3, 4, 6, 5, 1, 2,
];

#[test]
fn four_moved_down_of_whom_two_are_paired(rt: HostRuntime) -> Result<(), Fail> {
    let bracket = Bracket::new(&[6, 6, 4, 2, 0, 0], 4, false);
    let shape = Shape { pairs: 2, mdps: 2 };
    assert!(rt; are_listed(rt.alloc(), &bracket, shape, &MOVED_DOWN)?);
    Ok(())
}

const FOUR: [u16; 48] = [
    1, 2, 3, 4, 1, 2, 4, 3, 1, 3, 2, 4, 1, 3, 4, 2, 1, 4, 2, 3, 1, 4, 3, 2, 2, 3, 1, 4, 2, 3, 4, 1,
    2, 4, 1, 3, 2, 4, 3, 1, 3, 4, 1, 2, 3, 4, 2, 1,
];

#[test]
fn four_players_of_one_score(rt: HostRuntime) -> Result<(), Fail> {
    let bracket = Bracket::new(&[0, 0, 0, 0], 0, true);
    let shape = Shape { pairs: 2, mdps: 0 };
    assert!(rt; are_listed(rt.alloc(), &bracket, shape, &FOUR)?);
    Ok(())
}

// The candidate of so many, counted from 1, as a cursor's text; none if there are fewer.
fn printed(
    alloc: Global,
    mut candidates: Candidates<'_, Free>,
    count: u32,
) -> Result<Option<String>, Fail> {
    let mut budget = Budget {
        limit: AMPLE,
        used: 0,
    };
    for _turn in 0..count {
        candidates.next(&mut budget);
    }
    match candidates.cursor() {
        Some(cursor) => Ok(Some(String::from_str(alloc, cursor.print().as_str())?)),
        None => Ok(None),
    }
}

#[test]
fn the_fifth_of_four_moved_down_as_text(rt: HostRuntime) -> Result<(), Fail> {
    let bracket = Bracket::new(&[6, 6, 4, 2, 0, 0], 4, false);
    let candidates = Candidates::new(&bracket, Shape { pairs: 2, mdps: 2 }, &Free);
    let text = printed(rt.alloc(), candidates, 5)?;
    assert!(rt; text.as_deref() == Some("2,3/5,6/0/0"));
    Ok(())
}

// The numbers of the candidates of four players of one score behind a cursor.
fn behind(alloc: Global, text: &str) -> Result<Vec<u16>, Fail> {
    let bracket = Bracket::new(&[0, 0, 0, 0], 0, true);
    let shape = Shape { pairs: 2, mdps: 0 };
    let Ok(cursor) = Cursor::read(text, &bracket, shape) else {
        return Err(Fail::new("no cursor of this bracket"));
    };
    order::a_cursor_is_of_its_bracket(&bracket, shape, text, &cursor);
    let coming = Candidates::from(&bracket, shape, &Free, cursor);
    let (numbers, _steps) = listing(alloc, coming, AMPLE)?;
    Ok(numbers)
}

#[test]
fn a_listing_behind_a_cursor(rt: HostRuntime) -> Result<(), Fail> {
    let seven = behind(rt.alloc(), "0/0/1,4/2,3")?;
    assert!(rt; seven.len() == 28 && FOUR.ends_with(&seven));
    let none = behind(rt.alloc(), "0/0/3,4/2,1")?;
    assert!(rt; none.is_empty());
    Ok(())
}

// Why a text is no cursor of four players of one score.
fn fault_of(text: &str) -> Option<order::CursorFault> {
    let bracket = Bracket::new(&[0, 0, 0, 0], 0, true);
    Cursor::read(text, &bracket, Shape { pairs: 2, mdps: 0 }).err()
}

#[test]
fn texts_that_are_no_cursor(rt: HostRuntime) {
    for text in ["0/0/1,2", "0/0/01,2/3,4"] {
        assert!(rt; !Cursor::syntax(text));
        assert!(rt; fault_of(text) == Some(order::CursorFault::Syntax));
    }
    assert!(rt; Cursor::syntax("0/0/2,1/3,4"));
    assert!(rt; fault_of("0/0/2,1/3,4") == Some(order::CursorFault::NotOfBracket));
}

// A bound that keeps the candidates whose S1R is 1 and 2.
#[derive(Drop)]
struct Keeps<'a> {
    bracket: &'a Bracket,
    shape: Shape,
    rule: &'a Free,
}

impl<'a> Bound for Keeps<'a> {
    type Room = ();

    ghost use Rattle.std.specs.Prelude.{not, ◌==◌, ◌||◌, slice_index};

    ghost frame = { λ k. k.bracket.now };

    ghost shape = { λ k. k.shape };

    ghost meets = { λ k. ⟦<Free as Rule>⟧.meets k.rule.now };

    ghost may_be_left = { λ k. ⟦<Free as Rule>⟧.may_be_left k.rule.now };

    ghost is_pruned = { λ _ a. not (slice_index a.s1r 0 == 1) || not (slice_index a.s1r 1 == 2) };

    ghost Holds = { λ _ _. Unit {0} };

    fn start(&self, _room: &mut ()) {}

    fn cannot_win(&self, prefix: &Prefix<'_>, _room: &mut ()) -> bool {
        let order::Filling::S2r = prefix.filling() else {
            return false;
        };
        let [one, two] = prefix.s1r() else {
            return false;
        };
        *one != 1 || *two != 2
    }

    fn cannot_win_with(
        &self,
        _prefix: &Prefix<'_>,
        _exchange: &order::Exchange<'_>,
        _room: &mut (),
    ) -> bool {
        false
    }
}

// A bound that never knows.
#[derive(Drop)]
struct KnowsNothing<'a> {
    bracket: &'a Bracket,
    shape: Shape,
    rule: &'a Free,
}

impl<'a> Bound for KnowsNothing<'a> {
    type Room = ();

    ghost use Rattle.std.specs.Prelude.{false};

    ghost frame = { λ b. b.bracket.now };

    ghost shape = { λ b. b.shape };

    ghost meets = { λ b. ⟦<Free as Rule>⟧.meets b.rule.now };

    ghost may_be_left = { λ b. ⟦<Free as Rule>⟧.may_be_left b.rule.now };

    ghost is_pruned = { λ _ _. false };

    ghost Holds = { λ _ _. Unit {0} };

    fn start(&self, _room: &mut ()) {}

    fn cannot_win(&self, _prefix: &Prefix<'_>, _room: &mut ()) -> bool {
        false
    }

    fn cannot_win_with(
        &self,
        _prefix: &Prefix<'_>,
        _exchange: &order::Exchange<'_>,
        _room: &mut (),
    ) -> bool {
        false
    }
}

// A bound that knows of S1R by their exchange alone: those of 1 and 2 whose sum is greater by 2 are pruned.
#[derive(Drop)]
struct ByDifference<'a> {
    bracket: &'a Bracket,
    shape: Shape,
    rule: &'a Free,
}

impl<'a> Bound for ByDifference<'a> {
    type Room = ();

    ghost use Rattle.std.specs.Prelude.{◌==◌};
    ghost use Rattle.dutch_order.specs.Prelude.{sum_of};

    ghost frame = { λ b. b.bracket.now };

    ghost shape = { λ b. b.shape };

    ghost meets = { λ b. ⟦<Free as Rule>⟧.meets b.rule.now };

    ghost may_be_left = { λ b. ⟦<Free as Rule>⟧.may_be_left b.rule.now };

    ghost is_pruned = { λ _ a. sum_of a.s1r == 5 };

    ghost Holds = { λ _ _. Unit {0} };

    fn start(&self, _room: &mut ()) {}

    fn cannot_win(&self, _prefix: &Prefix<'_>, _room: &mut ()) -> bool {
        false
    }

    fn cannot_win_with(
        &self,
        _prefix: &Prefix<'_>,
        exchange: &order::Exchange<'_>,
        _room: &mut (),
    ) -> bool {
        let [one, two] = exchange.original() else {
            return false;
        };
        *one == 1 && *two == 2 && exchange.difference() == 2
    }
}

// The listing must also end: the right candidates alone are not enough.
fn are_left<B: Bound<Room = ()>>(
    alloc: Global,
    mut candidates: Candidates<'_, Free>,
    bound: &B,
    numbers: &[u16],
) -> Result<bool, Fail>
    requires frame { B.frame bound.now ≡ candidates.frame }
    requires shape { B.shape bound.now ≡ candidates.shape }
    requires meets { B.meets bound.now ≡ ⟦<Free as Rule>⟧.meets candidates.rule }
    requires may_be_left { B.may_be_left bound.now ≡ ⟦<Free as Rule>⟧.may_be_left candidates.rule }
{
    let mut budget = Budget {
        limit: AMPLE,
        used: 0,
    };
    let mut left = Vec::new(alloc);
    for _turn in 0..100u32 {
        match candidates.next_within(bound, &mut (), &mut budget) {
            Step::Found(candidate) => left.extend_from_slice(&numbers_of(alloc, &candidate)?)?,
            Step::End => return Ok(left.as_slice() == numbers),
            Step::Undecided => return Ok(false),
        }
    }
    Ok(false)
}

#[test]
fn a_bound_leaves_one_s1r(rt: HostRuntime) -> Result<(), Fail> {
    let bracket = Bracket::new(&[0, 0, 0, 0], 0, true);
    let shape = Shape { pairs: 2, mdps: 0 };
    let bound = Keeps {
        bracket: &bracket,
        shape,
        rule: &Free,
    };
    let candidates = Candidates::new(&bracket, shape, &Free);
    let numbers = [1, 2, 3, 4, 1, 2, 4, 3];
    assert!(rt; are_left(rt.alloc(), candidates, &bound, &numbers)?);
    Ok(())
}

#[test]
fn a_bound_that_never_knows_leaves_all(rt: HostRuntime) -> Result<(), Fail> {
    let bracket = Bracket::new(&[0, 0, 0, 0], 0, true);
    let shape = Shape { pairs: 2, mdps: 0 };
    let bound = KnowsNothing {
        bracket: &bracket,
        shape,
        rule: &Free,
    };
    let candidates = Candidates::new(&bracket, shape, &Free);
    assert!(rt; are_left(rt.alloc(), candidates, &bound, &FOUR)?);
    Ok(())
}

// Of the S1R 1 and 4, and 2 and 3, nothing comes, and all others do.
const FOUR_WITHOUT_A_STAGE: [u16; 32] = [
    1, 2, 3, 4, 1, 2, 4, 3, 1, 3, 2, 4, 1, 3, 4, 2, 2, 4, 1, 3, 2, 4, 3, 1, 3, 4, 1, 2, 3, 4, 2, 1,
];

#[test]
fn a_bound_leaves_out_a_stage_of_exchanges(rt: HostRuntime) -> Result<(), Fail> {
    let bracket = Bracket::new(&[0, 0, 0, 0], 0, true);
    let shape = Shape { pairs: 2, mdps: 0 };
    let bound = ByDifference {
        bracket: &bracket,
        shape,
        rule: &Free,
    };
    let candidates = Candidates::new(&bracket, shape, &Free);
    assert!(rt; are_left(rt.alloc(), candidates, &bound, &FOUR_WITHOUT_A_STAGE)?);
    Ok(())
}
