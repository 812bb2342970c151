// A graph with costs, of which a cheapest matching is looked for (C.04.3 C.4, C.6 to C.19). Its vertices are the
// players of a bracket, perhaps with all lower ones or with the next lower scoregroup, but without those who are in
// some known pairs.
//
// A pair costs half of what it weighs: whoever looks for the matching counts all costs twice. To be left over costs
// something on top, so that as many pairs are made as can be; nothing where the weights tell of the next bracket (C.7).
// It costs far more to leave over a player who is in a pair in all arrangements that are looked at.
ghost use Rattle.std.specs.Prelude.{◌≡◌, ◌≤◌, All, IfOk, length};
ghost use Rattle.dutch_sequence.specs.declared.numbers.TheConstants.{LIMIT};
ghost use Rattle.dutch_weight_floors.specs.ScopedCosts.{IsReached};

use crate::scope::Standing;
use crate::scoped::Scoped;
use cheapest::Costs;
use dual::{MatchingRule, Wide};
use dutch_bracket::seated::Pair;
use std::alloc::AllocError;
use std::marker::Model;

/// What it costs to be left over, on top of half of the weight; and what it costs to leave over a player who is in a
/// pair in all arrangements.
#[derive(Clone, Copy)]
pub(crate) struct LeftOverCost {
    pub(crate) cost: Wide,
    pub(crate) never: Wide,
}

/// What vertices have in common that cost about the same with all others: a number that weighs as they do, where they
/// stand, and whether they may be left over.
#[derive(Clone, Copy, PartialEq, Eq)]
pub(crate) struct VertexClass {
    alike: u16,
    standing: Standing,
    may_be_left: bool,
}

/// The players that matchings go over, without those who are in some pairs.
#[derive(Drop)]
pub(crate) struct UnpairedGraph<'a, 'b> {
    scoped: &'b Scoped<'a, 'b>,
    // the vertices, by number
    numbers: Vec<u16>,
    left_over: LeftOverCost,
    // how many vertices are moved-down players; behind them stand the residents
    mdps: u16,
    // the first vertex of the lower half of the residents
    half: u16,
}

impl<'a, 'b> Model for UnpairedGraph<'a, 'b> {
    ghost use Rattle.dutch_weight_floors.specs.UnpairedGraphs.{IsUnpairedGraph, UnpairedGraph};

    ghost Value = { UnpairedGraph };

    ghost view = { λ r. record { scoped = r.scoped.now; numbers = r.numbers.items } };

    ghost invariant = { λ r. IsUnpairedGraph (record { scoped = r.scoped.now; numbers = r.numbers.items }) };
}

/// Yes if one of the pairs has the number.
pub fn is_in(pairs: &[Pair], number: u16) -> bool {
    pairs
        .iter()
        .any(|pair| pair.0 == number || pair.1 == number)
}

/// The numbers of those over whom the matchings go and who are in none of some pairs.
fn numbers_beside(scoped: &Scoped<'_, '_>, pairs: &[Pair]) -> Result<Vec<u16>, AllocError>
    ensures inside { IfOk result (λ numbers. All (IsReached scoped.now) numbers.items) }
    ensures few { IfOk result (λ numbers. length numbers.items ≤ LIMIT) }
{
    let mut numbers = Vec::new(scoped.weighing().context().alloc());
    for above in 0..scoped.size() {
        let number = above as u16 + 1;
        if !is_in(pairs, number) {
            numbers.push(number)?;
        }
    }
    Ok(numbers)
}

/// How many numbers are no greater than a last one.
fn count_upto(numbers: &[u16], last: usize) -> u16 {
    let count = numbers.iter().filter(|n| usize::from(**n) <= last).count();
    u16::try_from(count).unwrap_or(u16::MAX)
}

/// The first vertex of the lower half of the residents, if each moved-down player is paired with one of the first residents.
fn half_behind(mdps: u16, inside: u16) -> u16 {
    let residents = inside.saturating_sub(mdps).saturating_sub(mdps);
    mdps.saturating_add(mdps).saturating_add(residents / 2)
}

impl<'a, 'b> UnpairedGraph<'a, 'b> {
    /// The players who are in none of some pairs of numbers, and what it costs to be left over.
    pub(crate) fn beside(
        scoped: &'b Scoped<'a, 'b>,
        pairs: &[Pair],
        left_over: LeftOverCost,
    ) -> Result<UnpairedGraph<'a, 'b>, AllocError> {
        let numbers = numbers_beside(scoped, pairs)?;
        let context = scoped.weighing().context();
        let mdps = count_upto(&numbers, context.reached().mdps());
        let inside = count_upto(&numbers, context.len());
        Ok(UnpairedGraph {
            scoped,
            numbers,
            left_over,
            mdps,
            half: half_behind(mdps, inside),
        })
    }

    /// The numbers of the vertices.
    pub(crate) fn numbers(&self) -> &[u16]
        ensures { result.now ≡ self.now.numbers }
    {
        &self.numbers
    }

    /// Where a number stands.
    pub(crate) fn standing(&self, number: u16) -> Standing {
        self.scoped.standing(number)
    }

    /// A label where each pair costs as much more as the order adds.
    pub(crate) fn without_share(&self, label: Wide, number: u16) -> Option<Wide> {
        self.scoped.without_share(label, number)
    }

    /// What is more than what it costs to leave anybody over.
    pub(crate) fn never(&self) -> Wide {
        self.left_over.never
    }

    pub(crate) fn may_pair(&self, a: u16, b: u16) -> bool {
        self.scoped.may_pair(a, b)
    }

    /// What it costs to be left over, on top of half of the weight.
    pub(crate) fn left_over_cost(&self) -> Wide {
        self.left_over.cost
    }
}

impl<'a, 'b> Costs for UnpairedGraph<'a, 'b> {
    type Class = VertexClass;

    ghost use Rattle.dutch_weight_floors.specs.UnpairedGraphs.{joined, vertices};

    ghost vertices = { vertices };

    ghost joined = { joined };

    fn size(&self) -> u16 {
        self.numbers.len() as u16
    }

    fn cost(&self, a: u16, b: u16) -> Option<Wide> {
        let (a, b) = (self.numbers[usize::from(a)], self.numbers[usize::from(b)]);
        if !self.scoped.may_meet(a, b) {
            return None;
        }
        Some(self.scoped.weight(a, b).halved())
    }

    fn left_cost(&self, a: u16) -> Option<Wide> {
        let a = self.numbers[usize::from(a)];
        if self.scoped.must_meet(a) {
            return Some(self.left_over.never);
        }
        if !self.scoped.may_be_left(a) {
            return Some(self.left_over.never);
        }
        self.scoped.left_cost(a).halved().plus(self.left_over.cost)
    }

    fn class(&self, a: u16) -> VertexClass {
        let a = self.numbers[usize::from(a)];
        VertexClass {
            alike: self.scoped.alike(a),
            standing: self.scoped.standing(a),
            may_be_left: self.scoped.may_be_left(a),
        }
    }

    fn costs_by_class(&self) -> bool {
        self.scoped.weighs_by_class()
    }

    // (as article D does: moved-down players with the first residents, then the upper half with the lower half)
    fn looks_from(&self, a: u16) -> u16 {
        if a < self.mdps {
            self.mdps
        } else if a < self.half {
            self.half
        } else {
            self.size()
        }
    }
}
