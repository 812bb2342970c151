// What pairs gain: what it costs to leave both vertices over, less what the pair costs. All numbers count twice, so
// that halves of their differences are whole. The graph is asked about a pair each time that its gain is needed: a
// table of all gains would take far more memory, and a search that begins where another one ended needs few of them.
ghost use Rattle.std.specs.Prelude.{◌≡◌, ◌≤◌, ◌<◌, IfErr};
ghost use Rattle.cheapest.specs.declared.fault.Fault.TheVariants.{Stopped, TooGreat};

use crate::fault::Fault;
use crate::graph::Costs;
use crate::places::Places;
use crate::steps::{greater, sum, take_step};
use dual::Wide;
use std::alloc::Global;

/// A graph, and what it takes to tell what each of its pairs gains.
#[derive(Drop)]
pub(crate) struct Gains<'c, C: Costs> {
    pub(crate) costs: &'c C,
    /// Twice what it costs to leave each vertex over. Twice the greatest one fits, and so does the sum of any two.
    pub(crate) left: Places<Wide>,
}

// The greater number, if there is a second one.
fn greater_cost(a: Wide, b: Option<Wide>) -> Wide {
    match b {
        Some(b) => greater(a, b),
        None => a,
    }
}

// The greatest cost of a pair that a vertex is in, and of leaving it over, with a step for each pair asked about.
fn greatest_at<C: Costs>(costs: &C, a: u16, most: Wide, left: &mut u64) -> Result<Wide, Fault>
    requires { a < C.vertices costs.now }
    ensures falls { left.new ≤ left.old }
    ensures stopped { IfErr result (λ fault. fault ≡ Stopped → left.new ≡ 0) }
{
    let mut most = greater_cost(most, costs.left_cost(a));
    let end = costs.size();
    for b in a + 1..end {
        take_step(left)?;
        most = greater_cost(most, costs.cost(a, b));
    }
    Ok(most)
}

// The greatest cost of a pair, and of leaving a vertex over, with a step for each pair asked about; 1 at least.
fn greatest_of_all<C: Costs>(costs: &C, left: &mut u64) -> Result<Wide, Fault>
    ensures falls { left.new ≤ left.old }
    ensures stopped { IfErr result (λ fault. fault ≡ Stopped → left.new ≡ 0) }
{
    let mut most = Wide::from_u64(1);
    for a in 0..costs.size() {
        most = greatest_at(costs, a, most, left)?;
    }
    Ok(most)
}

// More than any matching of so many vertices costs: the greatest cost, doubled as often as their number has digits to
// base 2.
fn more_than_any(greatest: Wide, size: u16) -> Result<Wide, Fault>
    ensures { IfErr result (λ fault. fault ≡ TooGreat) }
{
    let mut most = greatest;
    let mut count = size;
    for _ in 0..16 {
        if count > 0 {
            count /= 2;
            most = sum(most, most)?;
        }
    }
    Ok(most)
}

// Whether there is a vertex that must not be left over.
fn must_pair_some<C: Costs>(costs: &C) -> bool {
    for v in 0..costs.size() {
        if costs.left_cost(v).is_none() {
            return true;
        }
    }
    false
}

// What counts as the cost of leaving over a vertex that must not be: worked out only if there is one.
fn cost_of_must<C: Costs>(costs: &C, left: &mut u64) -> Result<Wide, Fault>
    ensures falls { left.new ≤ left.old }
    ensures stopped { IfErr result (λ fault. fault ≡ Stopped → left.new ≡ 0) }
{
    if !must_pair_some(costs) {
        return Ok(Wide::zero());
    }
    let greatest = greatest_of_all(costs, left)?;
    more_than_any(greatest, costs.size())
}

// What a pair costs, asked with the smaller vertex first; none for two that are no pair of the graph.
fn cost_of<C: Costs>(costs: &C, a: u16, b: u16) -> Option<Wide> {
    let size = costs.size();
    if a >= size || b >= size || a == b {
        return None;
    }
    if a < b {
        costs.cost(a, b)
    } else {
        costs.cost(b, a)
    }
}

impl<'c, C: Costs> Gains<'c, C> {
    /// The gains of a graph, with no places yet.
    pub(crate) fn new(alloc: Global, costs: &'c C) -> Gains<'c, C> {
        Gains {
            costs,
            left: Places::new(alloc, Wide::zero()),
        }
    }

    /// Finds what it costs to leave each vertex over, with a step for each pair asked about.
    pub(crate) fn weigh(&mut self, left: &mut u64) -> Result<(), Fault>
        ensures falls { left.new ≤ left.old }
        ensures stopped { IfErr result (λ fault. fault ≡ Stopped → left.new ≡ 0) }
    {
        self.left.grow(usize::from(self.costs.size()))?;
        let most = cost_of_must(self.costs, left)?;
        self.weigh_left_over(most)
    }

    // Notes twice what it costs to leave each vertex over. The sum of any two has to fit.
    fn weigh_left_over(&mut self, most: Wide) -> Result<(), Fault>
        ensures { IfErr result (λ fault. fault ≡ TooGreat) }
    {
        let costs = self.costs;
        for v in 0..costs.size() {
            let cost = costs.left_cost(v).unwrap_or(most);
            let twice = sum(cost, cost)?;
            sum(twice, twice)?;
            self.left.put(usize::from(v), twice);
        }
        Ok(())
    }

    /// Where a vertex begins to look for its first partner.
    pub(crate) fn looks_from(&self, a: u16) -> u16 {
        if a < self.costs.size() {
            self.costs.looks_from(a)
        } else {
            0
        }
    }

    /// What a pair gains, if it gains something: only such pairs are joined. The graph is asked once.
    pub(crate) fn of(&self, a: u16, b: u16) -> Option<Wide> {
        let cost = cost_of(self.costs, a, b)?;
        let left = self.left.at(usize::from(a));
        let both = left.plus(self.left.at(usize::from(b)))?;
        let gain = both.minus(cost.doubled()?)?;
        (!gain.is_zero()).then_some(gain)
    }
}
