//! Laws of results and byes that are entered by hand: what holds of the definitions, beyond what one call promises.
//!
//! Each law is a function with an empty body, and its contract is the law, over the definitions of `entries` and of
//! `trf16_report`. No other crate uses them.
#![tactic(auto)]

pub mod entered;
