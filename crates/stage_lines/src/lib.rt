//! The lines with which `explain` tells of the brackets of a round: their players, shapes, candidates, items, pairs and
//! byes; of a barrier, where there is no pairing; and of what was asked instead. As codes, or in words.
//!
//! Each call puts the text that its definition names behind a page, and if memory is refused, it says so.
#![tactic(auto)]

pub mod barrier_lines;
mod board_lines;
pub mod bracket_lines;
mod choice_lines;
pub mod instead_lines;
mod item_lines;
