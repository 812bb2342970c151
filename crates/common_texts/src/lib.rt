//! Texts that several answers have: half points as points, the values of the keys that break ties, what a cell says, a
//! name without control characters, and that the steps of a bracket did not suffice; and `Page`, in which texts are
//! made.
#![tactic(auto)]

mod cells;
mod controls;
mod key_values;
mod names;
mod page;
mod points;
mod too_few_steps;

pub use cells::{RoundOf, result_mark};
pub use controls::{put_without_controls, without_controls};
pub use key_values::KeyValue;
pub use names::name_or_dash;
pub use page::Page;
pub use points::HalfPoints;
pub use too_few_steps::{put_undecided, put_undecided_words};
