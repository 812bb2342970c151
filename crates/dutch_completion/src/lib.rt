//! Who can be paired out by the FIDE (Dutch) System (C.04.3 A.9), by a search or by a matching that is confirmed,
//! specified by lists of pairs; and so which candidates of a bracket can be chosen (C.4).
//!
//! `completes` is a call of `dutch_rounds` that stands here. A matching is on the heap while it is looked for.
//!
//! To mind: players are named by seat in a field, and by number from 1 in a bracket.
#![tactic(auto)]

mod completion;
pub mod eligible;
pub mod matched;
pub mod meetings;
pub mod seats;

pub use completion::completes;
