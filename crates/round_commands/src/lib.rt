//! The commands that tell the boards of a round or the candidates of a bracket, each in a file of its name: `pair`,
//! `candidates`, and `boards`, which prints boards as `pair` does.
//!
//! To mind: a text is made whole in memory, and if memory is refused, the call says so.
#![tactic(auto)]

pub mod boards;
pub mod candidates;
pub mod pair;
