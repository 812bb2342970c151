// The choices of D.1, D.2 and D.3 one after another, and the steps that they take.
ghost use Rattle.std.specs.Prelude.{◌≤◌, length};
ghost use Rattle.std.specs.List.Sorted.{IsStrictlyIncreasing};
ghost use Rattle.dutch_order.specs.TheConstants.{LIMIT};

use crate::rules::{AMPLE, Apart, Free, raised};
use dutch_order::{
    Budget, Exchanges, Generator, LIMIT, LimboExchanges, Numbers, Step, Transpositions,
    numbered_from,
};
use std::alloc::Global;
use std::test::Fail;

// The lists that a generator hands out, one after another, where its limit starts at `limit` and rises by one after
// each Undecided, and the steps that it used.
fn drawn<L: Generator + Drop>(
    alloc: Global,
    mut lists: L,
    limit: u64,
) -> Result<(Vec<u16>, u64), Fail> {
    let mut budget = Budget { limit, used: 0 };
    let mut numbers = Vec::new(alloc);
    for _turn in 0..100_000u32 {
        match lists.next(&mut budget) {
            Step::Found(list) => numbers.extend_from_slice(&list)?,
            Step::End => break,
            Step::Undecided => {
                if !raised(&mut budget) {
                    break;
                }
            }
        }
    }
    Ok((numbers, budget.used))
}

// The two generators are equal. One runs under an ample limit, the other under limits that rise from 0, and both must
// give the same lists in as many steps. The answer is the lists and the steps.
fn drawn_twice<L: Generator + Drop>(
    alloc: Global,
    one: L,
    again: L,
) -> Result<(Vec<u16>, u64), Fail> {
    let (ample, used) = drawn(alloc, one, AMPLE)?;
    let (raised, used_again) = drawn(alloc, again, 0)?;
    if ample.as_slice() != raised.as_slice() || used != used_again {
        return Err(Fail::new("the limit counts"));
    }
    Ok((ample, used))
}

const SIX_BY_THREE: [u16; 60] = [
    1, 2, 3, 1, 2, 4, 1, 2, 5, 1, 3, 4, 1, 2, 6, 1, 3, 5, 2, 3, 4, 1, 3, 6, 2, 3, 5, 2, 3, 6, 1, 4,
    5, 1, 4, 6, 2, 4, 5, 1, 5, 6, 2, 4, 6, 3, 4, 5, 2, 5, 6, 3, 4, 6, 3, 5, 6, 4, 5, 6,
];

#[test]
fn exchanges_of_six_by_three(rt: HostRuntime) -> Result<(), Fail> {
    let one = Exchanges::new(&[1, 2, 3, 4, 5, 6], 3);
    let again = Exchanges::new(&[1, 2, 3, 4, 5, 6], 3);
    let (sets, _steps) = drawn_twice(rt.alloc(), one, again)?;
    assert!(rt; sets.as_slice() == SIX_BY_THREE.as_slice());
    Ok(())
}

#[test]
fn exchanges_of_a_pool_with_a_gap(rt: HostRuntime) -> Result<(), Fail> {
    let one = Exchanges::new(&[1, 2, 3, 5], 2);
    let again = Exchanges::new(&[1, 2, 3, 5], 2);
    let (sets, _steps) = drawn_twice(rt.alloc(), one, again)?;
    assert!(rt; sets.as_slice() == [1, 2, 1, 3, 2, 3, 1, 5, 2, 5, 3, 5].as_slice());
    Ok(())
}

#[test]
fn sets_of_moved_down_players(rt: HostRuntime) -> Result<(), Fail> {
    let one = LimboExchanges::new(&[6, 6, 4, 2], 2);
    let again = LimboExchanges::new(&[6, 6, 4, 2], 2);
    let (sets, _steps) = drawn_twice(rt.alloc(), one, again)?;
    assert!(rt; sets.as_slice() == [1, 2, 1, 3, 2, 3, 1, 4, 2, 4, 3, 4].as_slice());
    Ok(())
}

const NINE: [u16; 9] = [3, 4, 5, 6, 7, 8, 9, 10, 11];

// 9 times 8 tuples of two.
#[test]
fn transpositions_of_two_over_nine(rt: HostRuntime) -> Result<(), Fail> {
    let one = Transpositions::new(&[1, 2], &NINE, &Free);
    let again = Transpositions::new(&[1, 2], &NINE, &Free);
    let (tuples, _steps) = drawn_twice(rt.alloc(), one, again)?;
    assert_eq!(rt; tuples.len(), 2 * 72);
    assert!(rt; tuples.starts_with(&[3, 4]) && tuples.ends_with(&[11, 10]));
    Ok(())
}

// Three beginnings are shorter than two, and each is tried with both numbers.
#[test]
fn transpositions_of_two_over_two(rt: HostRuntime) -> Result<(), Fail> {
    let one = Transpositions::new(&[1, 2], &[3, 4], &Free);
    let again = Transpositions::new(&[1, 2], &[3, 4], &Free);
    let (tuples, steps) = drawn_twice(rt.alloc(), one, again)?;
    assert!(rt; tuples.as_slice() == [3, 4, 4, 3].as_slice());
    assert_eq!(rt; steps, 6);
    Ok(())
}

// Of the beginnings that are shorter than two one is barred.
#[test]
fn transpositions_with_two_kept_apart(rt: HostRuntime) -> Result<(), Fail> {
    let rule = Apart(1, 3);
    let one = Transpositions::new(&[1, 2], &[3, 4], &rule);
    let again = Transpositions::new(&[1, 2], &[3, 4], &rule);
    let (tuples, steps) = drawn_twice(rt.alloc(), one, again)?;
    assert!(rt; tuples.as_slice() == [4, 3].as_slice());
    assert_eq!(rt; steps, 4);
    Ok(())
}

// The numbers from 1 to a last one.
fn numbers_to(last: usize) -> Numbers
    requires { last ≤ LIMIT }
    ensures ascends { IsStrictlyIncreasing result.items }
    ensures few { length result.items ≤ LIMIT }
{
    numbered_from(1, last)
}

// The set must be 1 to 511 and the last number.
fn is_next(sets: &mut Exchanges, last: u16, budget: &mut Budget) -> bool {
    let Step::Found(set) = sets.next(budget) else {
        return false;
    };
    set.len() == 512 && set.starts_with(&numbers_to(511)) && set.ends_with(&[last])
}

#[test]
fn exchanges_of_the_largest_pool(rt: HostRuntime) {
    let pool = numbers_to(LIMIT);
    if pool.len() < 512 {
        assert!(rt; false);
        return;
    }
    let mut sets = Exchanges::new(&pool, 512);
    let mut budget = Budget {
        limit: 2_000,
        used: 0,
    };
    assert!(rt; is_next(&mut sets, 512, &mut budget));
    assert!(rt; is_next(&mut sets, 513, &mut budget));
    assert!(rt; is_next(&mut sets, 514, &mut budget));
    assert_eq!(rt; budget.used, 1_027);
}
