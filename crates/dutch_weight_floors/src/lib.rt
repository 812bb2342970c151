//! Floors by weight: what every candidate of a bracket with a beginning weighs at least (C.04.3 C.6 to C.19), by
//! certificates for matchings.
//!
//! `dutch_weighing` makes one number of a quality: the one that weighs less is better. Whoever finds a certificate is
//! not trusted: `WeightFloors` has `dual` check each one, and keeps what it bounds. On the heap is what pairs weigh, a
//! few certificates, and a matching while it is looked for; if memory is refused, there is no floor.
#![tactic(auto)]

pub mod asking;
mod certificate_table;
mod order;
pub mod scope;
pub mod scoped;
mod traces;
pub mod unpaired_graph;
pub mod weight_floor;
mod witness;
