//! Laws of the page of a tournament, for readers: no text of a report can add a tag, a value or a reference, each
//! element that is opened is closed, and each board and each place of the standings has one row. No crate of the
//! program uses them.
//!
//! Each law is a function with an empty body, and its contract is the law, over the definitions of `markup` and
//! `sheets`.
#![tactic(auto)]

pub mod rows;
pub mod texts;
