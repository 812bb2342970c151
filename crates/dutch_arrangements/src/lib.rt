//! Arrangements of the players of a bracket, by numbers: their definitions in the order of the Handbook's article D, by
//! sorted lists, and the types that the listing in `dutch_listing` works with.
//!
//! A `Cursor` says where a listing stands, and has a text. A `Prefix` is the beginning of an arrangement. Nothing here
//! knows chess.
//!
//! Nothing takes memory: every list is an array with room for `LIMIT` numbers, 1,024. So brackets and candidates are
//! large values, of some KiB, and are cleared where they are made.
//!
//! To mind: numbers of a bracket count from 1.
#![tactic(auto)]

mod arrangement;
mod bracket;
mod candidate;
mod cursor;
mod prefix;

pub use arrangement::{Arrangement, LastArrangement};
pub use bracket::{Bracket, FittingShape, Shape};
pub use candidate::Candidate;
pub use cursor::{Cursor, CursorFault, CursorText, TEXT_LIMIT};
pub use dutch_sequence::{
    Budget, Exchange, Exchanges, Generator, LIMIT, LimboExchanges, Numbers, Rule, Step, Stopped,
    Transpositions, numbered_from,
};
pub use prefix::{Filling, Prefix};
