//! A bracket of a round by the FIDE (Dutch) System (C.04.3): its players by seat, and the quality of its candidates.
//! The definitions that `dutch_candidates` meets stand here too: the shape of a bracket, what the next one can be, and
//! who can be paired out, by lists of pairs.
//!
//! `Context` is what the crates above ask about a bracket above its lower seats. Lists are arrays with room for 1,024
//! numbers on the stack. `tuning` has the numbers of the search, as all its crates see this one.
//!
//! To mind: players are named by seat in a field, and by number from 1 in a bracket.
#![tactic(auto)]

mod answer;
pub mod colours_missed;
pub mod context;
pub mod differences;
pub mod fault;
pub mod floats;
pub mod group;
pub mod item;
pub mod quality;
pub mod reached;
pub mod seated;
pub mod shaped;
pub mod spending;
pub mod tuning;

pub use answer::Answer;
pub use fault::PairFault;
pub use group::split_first_group;
pub use item::{ITEMS, Item};
pub use quality::{NextValue, Quality};
pub use reached::{BracketKind, ByNumber, Reached, Seats};
pub use seated::Pair;
