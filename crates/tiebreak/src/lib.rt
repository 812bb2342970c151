//! The standings of a report with tie-breaks: direct encounter, Buchholz and Sonneborn-Berger. Specified by sums over
//! the rounds that were paired, and by one order of rows.
//!
//! `table` gives the rows of all players in order, each with a value for each key, or tells the first reason, in one
//! stated order, why there are no standings.
//!
//! This crate is a front: it hands on the standings of `tables`, and the definitions that the clauses of its calls
//! name, as `Rattle.tiebreak.specs.Prelude`. So a caller names this crate alone. The boards of a round that was paired
//! stay in `tables`.
//!
//! To mind: scores, direct encounter and Buchholz are half points, Sonneborn-Berger quarters of a point. A key that
//! says nothing of a player has no value, and that is not 0.
#![tactic(auto)]

pub use tables::{Key, Row, Standings, TieFault, table};
