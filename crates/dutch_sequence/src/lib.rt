//! Choices of numbers one after another, in the order of the Handbook's article D, specified by sorted lists.
//!
//! `Transpositions`, `Exchanges` and `LimboExchanges` list the choices of D.1, D.2 and D.3. A call answers the first of
//! what is still to come, the end if nothing is, or that its limit was reached; then what is to come stays as it was. A
//! caller who knows that some choices are pruned goes on by `advance`, which stands still at each beginning. There the
//! caller may `leave` all choices that begin so.
//!
//! A `Budget` counts steps, each a number tried at a place, and no call goes beyond its limit. Nothing takes memory:
//! every list is an array with room for `LIMIT` numbers, 1,024. So generators are large values, of some KiB.
#![tactic(auto)]

mod exchange;
mod exchanged;
mod generator;
mod halves;
mod limbo;
pub mod numbers;
mod path;
mod rules;
mod search;
mod stage;
mod steps;
mod sums;
mod transposition;

pub use exchange::Exchanges;
pub use exchanged::Exchange;
pub use generator::Generator;
pub use limbo::LimboExchanges;
pub use numbers::{LIMIT, Numbers, numbered_from};
pub use rules::Rule;
pub use steps::{Budget, Drawn, Progress, Step, Stopped};
pub use sums::Sides;
pub use transposition::{Meeting, Transpositions};
