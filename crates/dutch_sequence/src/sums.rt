// Sums of the numbers at places of one side of an exchange.
ghost use Rattle.std.specs.Prelude.{◌≡◌, ◌+◌, ◌*◌, ◌-◌, ◌<◌, ◌≤◌, ℕ, [], ◌∷◌, length, map, slice_index};
ghost use Rattle.std.specs.List.{AllByRecursion};
ghost use Rattle.std.specs.List.Sorted.{IsStrictlyIncreasing};
ghost use Rattle.dutch_sequence.specs.Choices.{numbers_from};
ghost use Rattle.dutch_sequence.specs.Stages.{value_of, total, run};
ghost use Rattle.dutch_sequence.specs.declared.numbers.TheConstants.{LIMIT};
ghost use Rattle.dutch_sequence.specs.Sides.{count_of};

use crate::exchange::Side;
use crate::numbers::LIMIT;

/// The numbers that exchanges are made of, lowest first: at most `LIMIT`, of which the first `k` are the original set.
#[derive(Clone, Copy)]
pub struct Sides<'a> {
    pub pool: &'a [u16],
    pub k: usize,
    pub ghost ascends: { IsStrictlyIncreasing pool.now },
    pub ghost few: { length pool.now ≤ LIMIT },
    pub ghost enough: { k ≤ length pool.now },
}

/// A number of a pool.
fn number_at(pool: &[u16], index: usize) -> usize
    requires { index < length pool.now }
    ensures value { result ≡ slice_index pool.now index }
    ensures small { result ≤ 65535 }
{
    pool[index] as usize
}

/// The number at a place of a side.
pub fn value_at(sides: &Sides<'_>, side: Side, place: usize) -> usize
    requires { place < count_of sides.now.pool.now sides.now.k side }
    ensures value { result ≡ value_of sides.now.pool.now sides.now.k side place }
    ensures small { result ≤ 65535 }
{
    match side {
        Side::Out => number_at(sides.pool, sides.k - 1 - place),
        Side::In => number_at(sides.pool, sides.k + place),
    }
}

/// The sum of the numbers at places of a side.
pub fn total_of(sides: &Sides<'_>, side: Side, places: &[u16]) -> usize
    requires within { AllByRecursion (λ place. place < count_of sides.now.pool.now sides.now.k side) places.now }
    requires short { length places.now ≤ LIMIT }
    ensures value { result ≡ total (value_of sides.now.pool.now sides.now.k side) places.now }
    ensures small { result ≤ 65535 * length places.now }
{
    let mut sum = 0;
    for place in places {
        sum += value_at(sides, side, *place as usize);
    }
    sum
}

/// The sum of so many numbers of a side, from a place on.
pub fn run_of(sides: &Sides<'_>, side: Side, first: usize, count: usize) -> usize
    requires within { first + count ≤ count_of sides.now.pool.now sides.now.k side }
    requires short { count ≤ LIMIT }
    ensures value { result ≡ run sides.now.pool.now sides.now.k side first count }
    ensures small { result ≤ 65535 * count }
{
    let mut sum = 0;
    for place in first..first + count {
        sum += value_at(sides, side, place);
    }
    sum
}
