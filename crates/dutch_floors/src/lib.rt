//! Floors by counts: what every candidate of a bracket with a beginning owes (C.04.3 C.6 to C.19).
//!
//! `Floors::floor` fills a quality that no candidate with a beginning is better than, and this is all that it promises.
//! The quality is told by what is counted: differences (C.6), players of the next bracket (C.7), preferences that cannot
//! all be served (C.10, C.11), and lonely players, whom nobody of those left suits (C.10). No list is made for a
//! beginning.
#![tactic(auto)]

mod colour_floor;
mod first_value;
pub mod floor;
pub mod known_pairs;
mod lonely;
pub mod notes;
mod outlook;
