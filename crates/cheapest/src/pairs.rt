// The pass that makes a matching of what the searches have paired: it rests on nothing that they did.
ghost use Rattle.std.specs.Prelude.{◌≡◌, ◌<◌, length, vec_len, ℕ, IfOk};
ghost use Rattle.std.specs.Option.{MatchOption};
ghost use Rattle.matching.specs.Matchings.{IsPair, IsMatching};

use crate::forest::Forest;
use crate::graph::Costs;
use std::alloc::{AllocError, Global};

// Whom the searches have paired with each vertex.
fn wanted_partners<C: Costs>(
    alloc: Global,
    forest: &Forest<'_, C>,
    size: u16,
) -> Result<Vec<Option<u16>>, AllocError>
    ensures { IfOk result (λ wanted. vec_len wanted ≡ size) }
{
    let mut wanted = Vec::with_capacity(alloc, usize::from(size))?;
    for v in 0..size {
        wanted.push(forest.partner_of(v))?;
    }
    Ok(wanted)
}

// The partner of a vertex, if the two are in a pair.
fn partner<C: Costs>(costs: &C, wanted: &[Option<u16>], a: u16) -> Option<u16>
    requires of_graph { length wanted.now ≡ C.vertices costs.now }
    requires vertex { a < C.vertices costs.now }
    ensures { MatchOption result
        ((b : ℕ) → ¬ IsPair (C.joined costs.now) wanted.now a b)
        (IsPair (C.joined costs.now) wanted.now a) }
{
    let b = wanted[usize::from(a)]?;
    if b >= costs.size() {
        return None;
    }
    let is_pair = a != b
        && wanted[usize::from(b)] == Some(a)
        && costs.cost(a, b).is_some()
        && costs.cost(b, a).is_some();
    is_pair.then_some(b)
}

/// The pairs of a forest, as partners.
pub(crate) fn partners<C: Costs>(
    alloc: Global,
    costs: &C,
    forest: &Forest<'_, C>,
) -> Result<Vec<Option<u16>>, AllocError>
    ensures { IfOk result (λ found. IsMatching (C.vertices costs.now) (C.joined costs.now) found.items) }
{
    let size = costs.size();
    let wanted = wanted_partners(alloc, forest, size)?;
    let mut found = Vec::with_capacity(alloc, usize::from(size))?;
    for a in 0..size {
        found.push(partner(costs, &wanted, a))?;
    }
    Ok(found)
}
