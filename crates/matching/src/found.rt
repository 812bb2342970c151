// What is handed out.
ghost use Rattle.std.specs.Prelude.{◌≡◌, ◌≤◌, ◌<◌, ◌+◌, IfOk};
ghost use Rattle.matching.specs.Matchings.{IsMatching, AreLabels, most_steps};

use crate::fault::Fault;
use crate::forest::Forest;
use crate::graph::Graph;
use crate::labels::Labels;
use crate::pairs::partners;
use std::alloc::Global;

/// A matching, and labels that are meant to show that it is a greatest one.
#[derive(Drop)]
pub struct Found {
    /// The partner of each vertex, if it has one.
    pub partners: Vec<Option<u16>>,
    /// The label of each vertex: 0 for a blocker, else the number of its group, from 1 on.
    pub labels: Vec<u16>,
    /// The greatest label.
    pub most: u16,
}

/// Finds a matching of a graph, with labels. Each vertex that is asked about by the search takes one of the steps left;
/// where none is left, the search is stopped.
pub fn greatest<G: Graph>(alloc: Global, graph: &G, left: &mut u64) -> Result<Found, Fault>
    ensures matching { IfOk result
        (λ found. IsMatching (G.vertices graph.now) (G.joined graph.now) found.partners.items) }
    ensures labels { IfOk result (λ found. AreLabels (G.vertices graph.now) found.most found.labels.items) }
    ensures falls { left.new ≤ left.old }
    ensures few { left.old ≤ left.new + most_steps (G.vertices graph.now) }
    ensures stopped { result ≡ Err Fault.Stopped → (left.new ≡ 0) × (left.old < most_steps (G.vertices graph.now)) }
{
    let mut forest = Forest::new(alloc, graph.size())?;
    forest.pair_all(graph, left)?;
    let partners = partners(alloc, graph, &forest.partner)?;
    let Labels { labels, most } = forest.labels(alloc)?;
    Ok(Found {
        partners,
        labels,
        most,
    })
}
