//! Laws of reports: that what is written reads back, and what holds of every report that is accepted.
//!
//! Each law is a function with an empty body, and its contract is the law, over the definitions of `trf16_report`
//! alone. No other crate calls them; their lemmas also serve `report_laws`.
#![tactic(auto)]

pub mod accepted;
pub mod written;
