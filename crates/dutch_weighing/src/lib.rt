//! What a quality weighs, and what a pair and a downfloater of a bracket weigh alone (C.04.3 C.6 to C.19).
//!
//! A scale makes one number of a quality, and the one that weighs less is better: `Scale` writes it digit by digit.
//! What a candidate weighs is the sum of what its pairs and its downfloaters weigh alone, and of what the next bracket
//! weighs, where that is measured (C.7): `Weighing` has all of these, worked out once. It keeps them on the heap; if
//! memory is refused, there are no weights.
#![tactic(auto)]

mod classes;
mod scale;
mod weighing;

pub use scale::{DigitPlan, Scale, bits_for};
pub use weighing::Weighing;
