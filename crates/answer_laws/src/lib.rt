//! Laws of the answers of the command line, for readers: what `explain --instead` tells is true, and what the boards of
//! a report are compared with is what `pair` gives. No crate of the program uses them.
#![tactic(auto)]

pub mod laws;
