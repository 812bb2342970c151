//! Matchings of a graph, as great as may be, found by augmenting ways through blossoms (after Edmonds), specified by
//! what they are.
//!
//! `greatest` pairs vertices that are joined, and labels all vertices: 0 for blockers, and a number from 1 for each
//! group. If some vertex is left alone, the labels are meant to show that no matching has more pairs: more groups are
//! odd than there are blockers, and two groups are joined nowhere.
//!
//! What is proved: the search is safe and ends; its steps are counted, and it stops where none are left; what it hands
//! out is a matching of the graph, and labels that are not above the greatest one. That the matching is a greatest one,
//! and that the labels show it, is only tested: who relies on either has to check the labels.
//!
//! To mind: a graph has at most 65,535 vertices, counted from 0, and two vertices are joined if the graph says so in
//! both orders.
#![tactic(auto)]

mod blossom;
mod fault;
mod forest;
mod found;
mod graph;
mod labels;
mod links;
mod pairs;
mod search;

pub use fault::Fault;
pub use found::{Found, greatest};
pub use graph::Graph;
