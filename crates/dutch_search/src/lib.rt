//! The search for the best candidate of a shape (C.04.3 B.8, C.4 to C.19), within floors of both kinds.
//!
//! It puts together what is proved side by side: the passes of `dutch_passes`, and what `dutch_floors` and
//! `dutch_weight_floors` tell of the candidates behind a beginning, so that a pass leaves out those of which none wins.
//!
//! On the heap are the last 64 values of C.7, and where the pairs of a bracket are weighed, what these weigh and a few
//! floors as large. If memory is refused, a value is merely not kept, and no floor by weight is found.
#![tactic(auto)]

mod bars;
mod both;
mod guide;
mod last_beginning;
mod skipper;
mod skipping;
mod targets;
mod with_floors;

pub use with_floors::{SearchRoom, WithFloors};
