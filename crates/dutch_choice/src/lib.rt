//! The choice in a bracket of a round by the FIDE (Dutch) System (C.04.3 B.1, B.8, C.4 to C.19): its shape, which is
//! the most pairs that a candidate that can be chosen has, and then the most moved-down players in them; and of the
//! candidates of that shape the earliest whose quality none beats, also among those that grant a wish.
//!
//! `choose` is a call of `dutch_rounds` that stands here. It asks a finder for the best candidate of a shape, and the
//! choice is the same by each. So what pairs a round waits for none: `dutch_passes` has what a finder is made of.
//!
//! `shape_of` lists candidates for a few steps, which tells most shapes. Where it does not, a matching of least cost
//! does, whose certificate `dual` checks: its pairs are those of a candidate with the shape. Whoever finds the matching
//! is not trusted. It is on the heap while it is looked for; if memory is refused, the listing goes on. `lookahead`
//! asks the same of the next bracket (C.7).
#![tactic(auto)]

pub mod barred;
mod certified;
pub mod choice;
pub mod finder;
mod first_candidate;
pub mod lookahead;
mod matched;
mod players;
mod ruled_out;
pub mod shape;
pub mod start;

pub use choice::{Choice, choose};
pub use finder::Finder;
