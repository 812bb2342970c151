// The pass that makes a matching of what the searches have paired: it rests on nothing that they did.
ghost use Rattle.std.specs.Prelude.{◌≡◌, ◌<◌, length, ℕ, Some, IfOk};
ghost use Rattle.std.specs.Option.{MatchOption};
ghost use Rattle.matching.specs.Matchings.{IsPair, IsMatching, HasPairs};

use crate::graph::Graph;
use crate::links::Links;
use std::alloc::{AllocError, Global};

/// The partner of a vertex, if the two are in a pair.
fn partner<G: Graph>(graph: &G, links: &Links, a: u16) -> Option<u16>
    requires of_graph { length links.now.ends.items ≡ G.vertices graph.now }
    requires vertex { a < G.vertices graph.now }
    ensures { MatchOption result
        ((b : ℕ) → ¬ IsPair (G.joined graph.now) links.now.ends.items a b)
        (IsPair (G.joined graph.now) links.now.ends.items a) }
{
    let b = links.at(a)?;
    let is_pair = a != b && links.at(b) == Some(a) && graph.joins(a, b) && graph.joins(b, a);
    is_pair.then_some(b)
}

/// The pairs among links, as partners.
pub(crate) fn partners<G: Graph>(
    alloc: Global,
    graph: &G,
    links: &Links,
) -> Result<Vec<Option<u16>>, AllocError>
    requires { length links.now.ends.items ≡ G.vertices graph.now }
    ensures matching { IfOk result (λ found. IsMatching (G.vertices graph.now) (G.joined graph.now) found.items) }
    ensures kept { IfOk result (λ found. HasPairs (G.joined graph.now) links.now.ends.items found.items) }
{
    let size = graph.size();
    let mut found = Vec::with_capacity(alloc, usize::from(size))?;
    for a in 0..size {
        found.push(partner(graph, links, a))?;
    }
    Ok(found)
}
