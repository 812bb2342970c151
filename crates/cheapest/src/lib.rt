//! Matchings of a graph that cost as little as may be, each with a certificate that is meant to show it, found by
//! labels and blossoms (after Edmonds), specified by what is sure of them.
//!
//! `cheapest` pairs vertices that are joined. Each pair costs something, and so does each vertex that is left over.
//! With the matching comes a certificate: a potential for each vertex, what is given on top of the costs, and priced
//! sets of vertices. It is meant to be feasible, and to be worth just what the matching costs: then nothing is cheaper.
//! All its numbers are of costs that count twice, so that halves are whole.
//!
//! `cheapest_from` begins where another search ended, for example on a graph that has lost pairs since: with its labels,
//! and with those of its pairs that the labels still allow. So it is left with few searches if little has changed. It
//! may be told what is enough, and then ends as soon as its labels show that each matching costs more.
//!
//! What a pair costs is asked each time that it is needed, and kept nowhere. It counts as a look where a vertex asks about
//! all others, and for each pair to begin with; not where a single pair is asked about again.
//!
//! The graph may say which vertices are alike (`Costs::class`). Then the first labels come from a transport between the
//! classes, and fewer searches are left. It may say that costs go by class (`Costs::costs_by_class`). Then one pair of
//! each two classes is asked about for the transport, and not all of them. It may also say from where on each vertex
//! looks for its first partner (`Costs::looks_from`). Then, as far as that is easy, each vertex in turn has the first
//! partner that it can have. Whatever it says, it changes only how long that takes, and which of several cheapest
//! matchings is found. But who says that costs go by class where they do not may get a matching that is not cheapest;
//! its certificate is none then.
//!
//! What is proved of both: the search is safe and ends; it gives no step back, and says that it was stopped only where
//! none is left; what it hands out is a matching of the graph, with a potential and a label for each vertex, and a mark
//! for each in each set. That no matching is cheaper, that the certificate shows it, and that a search ends early only
//! where the certificate shows more than enough, is only tested: who relies on it has to check the certificate.
//!
//! To mind: a graph has at most 32,767 vertices, counted from 0. What two vertices cost is asked with the smaller one
//! first.
#![tactic(auto)]

mod blossom;
mod certificate;
mod classes;
mod events;
mod expansion;
mod fault;
mod forest;
mod found;
mod gains;
mod graph;
mod in_order;
mod pairs;
mod places;
mod scan;
mod search;
mod start;
mod steps;
mod transport;
mod warm;
mod ways;

pub use fault::Fault;
pub use found::{Found, LOOKS_IN_A_STEP, Start, cheapest, cheapest_from};
pub use graph::Costs;
