// One stage of the search of exchanges: a number of exchanged players, and a difference of the sums.
ghost use Rattle.dutch_sequence.specs.declared.numbers.TheConstants.{LIMIT};
ghost use Rattle.std.specs.Prelude.{◌≡◌, ◌+◌, ◌*◌, ◌-◌, ◌<◌, ◌≤◌, length, take, drop};
ghost use Rattle.std.specs.List.{AllByRecursion};
ghost use Rattle.std.specs.List.Sorted.{IsStrictlyIncreasing};
ghost use Rattle.dutch_sequence.specs.Sides.{count_of};
ghost use Rattle.dutch_sequence.specs.Stages.{least_at, greatest_at, least_difference, greatest_difference, exchange_plan};
ghost use Rattle.dutch_sequence.specs.declared.exchange.Side.TheVariants.{In, Out};
ghost use Rattle.dutch_sequence.specs.Descents.{IsOpen};

use crate::exchange::Side;
use crate::halves::{end_of_half, first_of_half};
use crate::numbers::LIMIT;
use crate::path::Path;
use crate::search::Tree;
use crate::sums::{Sides, run_of, total_of, value_at};

/// The differences of the sums that an exchange can still have.
#[derive(Clone, Copy)]
struct DifferenceRange {
    least: usize,
    greatest: usize,
}

/// What can still come if a place is tried for a number moved out.
#[tactic(auto, unfolding(crate::specs::Stages::least_at, crate::specs::Stages::greatest_at))]
fn range_out(stage: &ExchangeStage<'_>, path: &[u16], place: usize) -> DifferenceRange
    requires opened { length path.now < stage.now.size }
    requires walked { AllByRecursion (λ place. place < stage.now.k) path.now }
    requires room { place + (stage.now.size - 1 - length path.now) < stage.now.k }
    ensures least { result.least ≡ least_at stage.now.pool.now stage.now.k stage.now.size path.now place }
    ensures greatest { result.greatest ≡ greatest_at stage.now.pool.now stage.now.k stage.now.size path.now place }
{
    let pool = stage.pool;
    let k = stage.k;
    let sides = Sides { pool, k };
    let size = stage.size;
    let rest = size - 1 - path.len();
    let out = total_of(&sides, Side::Out, path) + value_at(&sides, Side::Out, place);
    let most_out = out + run_of(&sides, Side::Out, place + 1, rest);
    let least_out = out + run_of(&sides, Side::Out, k - rest, rest);
    let least_in = run_of(&sides, Side::In, 0, size);
    let most_in = run_of(&sides, Side::In, pool.len() - k - size, size);
    DifferenceRange {
        least: least_in.saturating_sub(most_out),
        greatest: most_in.saturating_sub(least_out),
    }
}

/// What can still come if a place is tried for a number moved in.
#[tactic(auto, unfolding(crate::specs::Stages::least_at, crate::specs::Stages::greatest_at))]
fn range_in(stage: &ExchangeStage<'_>, path: &[u16], place: usize) -> DifferenceRange
    requires second { stage.now.size ≤ length path.now }
    requires opened { length path.now < stage.now.size + stage.now.size }
    requires walked_out { AllByRecursion (λ place. place < stage.now.k) (take stage.now.size path.now) }
    requires walked_in { AllByRecursion (λ place. place < length stage.now.pool.now - stage.now.k)
        (drop stage.now.size path.now) }
    requires room { place + (stage.now.size + stage.now.size - 1 - length path.now)
        < length stage.now.pool.now - stage.now.k }
    ensures least { result.least ≡ least_at stage.now.pool.now stage.now.k stage.now.size path.now place }
    ensures greatest { result.greatest ≡ greatest_at stage.now.pool.now stage.now.k stage.now.size path.now place }
{
    let pool = stage.pool;
    let k = stage.k;
    let sides = Sides { pool, k };
    let size = stage.size;
    let rest = size + size - 1 - path.len();
    let (outs, ins) = path.split_at(size);
    let out = total_of(&sides, Side::Out, outs);
    let moved = total_of(&sides, Side::In, ins) + value_at(&sides, Side::In, place);
    let least_in = moved + run_of(&sides, Side::In, place + 1, rest);
    let most_in = moved + run_of(&sides, Side::In, pool.len() - k - rest, rest);
    DifferenceRange {
        least: least_in.saturating_sub(out),
        greatest: most_in.saturating_sub(out),
    }
}

/// One stage of the search: a number of exchanged players, and a difference of the sums.
#[derive(Drop)]
pub struct ExchangeStage<'a> {
    pub pool: &'a [u16],
    pub k: usize,
    pub size: usize,
    pub difference: usize,
    pub ghost ascends: { IsStrictlyIncreasing pool.now },
    pub ghost few: { length pool.now ≤ LIMIT },
    pub ghost enough: { k ≤ length pool.now },
    pub ghost outs: { size ≤ k },
    pub ghost ins: { size ≤ length pool.now - k },
}

/// What can still come if a place is tried in a stage.
#[tactic(auto, unfolding(crate::specs::Halves::half_stop))]
fn range_of(stage: &ExchangeStage<'_>, path: &[u16], place: usize) -> DifferenceRange
    requires opened { IsOpen (exchange_plan stage.now.pool.now stage.now.k stage.now.size stage.now.difference)
        path.now }
    requires tried { let plan = exchange_plan stage.now.pool.now stage.now.k stage.now.size stage.now.difference in
        place < plan.stop path.now }
    ensures least { result.least ≡ least_at stage.now.pool.now stage.now.k stage.now.size path.now place }
    ensures greatest { result.greatest ≡ greatest_at stage.now.pool.now stage.now.k stage.now.size path.now place }
{
    if path.len() < stage.size {
        range_out(stage, path, place)
    } else {
        range_in(stage, path, place)
    }
}

impl<'a> Tree<LIMIT> for ExchangeStage<'a> {
    ghost use Rattle.dutch_sequence.specs.Halves.{half_stop};
    ghost use Rattle.dutch_sequence.specs.Stages.{exchange_plan};
    ghost use Rattle.std.proofs.Common.{arith};
    ghost use Rattle.std.proofs.lemmas.Bool.Decides.{nat_tests};

    ghost plan = { λ t. exchange_plan t.pool.now t.k t.size t.difference };

    ghost within = { λ t path. unfold half_stop in Prim.grind (arith, nat_tests) };

    ghost few = { λ t. Prim.grind arith };

    ghost narrow = { λ t. Prim.grind arith };

    ghost small = { λ t. Prim.grind arith };

    fn places(&self) -> usize {
        self.size + self.size
    }

    fn start(&self, path: &[u16]) -> usize {
        first_of_half(self.size, path)
    }

    fn stop(&self, path: &[u16]) -> usize {
        end_of_half(self.size, self.k, self.pool.len() - self.k, path)
    }

    #[tactic(auto, unfolding(crate::specs::Stages::within_reach))]
    fn admits(&self, path: &Path<LIMIT>, place: u16) -> bool {
        let range = range_of(self, path.as_slice(), place as usize);
        range.least <= self.difference && self.difference <= range.greatest
    }

    #[tactic(auto, unfolding(crate::specs::Stages::beyond_reach))]
    fn beyond(&self, path: &[u16], place: u16) -> Option<usize> {
        let range = range_of(self, path, place as usize);
        if self.difference < range.least {
            Some(range.least)
        } else {
            None
        }
    }
}

/// The least difference of the sums of exchanges of so many.
pub fn least_of(sides: &Sides<'_>, size: usize) -> usize
    requires outs { size ≤ sides.now.k }
    requires ins { size ≤ length sides.now.pool.now - sides.now.k }
    ensures { result ≡ least_difference sides.now.pool.now sides.now.k size }
{
    run_of(sides, Side::In, 0, size).saturating_sub(run_of(sides, Side::Out, 0, size))
}

/// The greatest one.
pub fn greatest_of(sides: &Sides<'_>, size: usize) -> usize
    requires outs { size ≤ sides.now.k }
    requires ins { size ≤ length sides.now.pool.now - sides.now.k }
    ensures { result ≡ greatest_difference sides.now.pool.now sides.now.k size }
{
    let most_in = run_of(sides, Side::In, sides.pool.len() - sides.k - size, size);
    most_in.saturating_sub(run_of(sides, Side::Out, sides.k - size, size))
}
