//! The candidates of a bracket by the FIDE (Dutch) System (C.04.3): which shape is the greatest that has one, by a
//! listing (B.1, C.5); which grant a wish; which lists a beginning fixes; and the least PSD of flat brackets (C.6).
//!
//! To mind: players are named by number from 1 in a bracket.
#![tactic(auto)]

pub mod bit_table;
mod conditions;
pub mod few_steps;
pub mod fixed_lists;
pub mod greatest;
pub mod narrowed;
pub mod psd_floor;
pub mod wish;

pub use conditions::{are_left, is_next};
