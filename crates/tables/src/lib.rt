//! The tables that are read off a report: its standings with tie-breaks, and the boards of a round as they are in it.
//! Specified by sums over the rounds that were paired, by the report's cells, and by one order of rows and one of
//! boards.
//!
//! `table` gives the rows of all players of a report in order, each with a value for each key, or tells the first
//! reason, in one stated order, why there are no standings. Laws in `report_laws` say that each player has one row, and
//! that no row goes before one in front of it. `has_standings` tells that first reason alone, and `rows_of` gives the
//! rows alone.
//!
//! `boards_of` gives who sat with white and with black at each board of a round, in the order in which the boards of a
//! round are paired, whatever the results are. Laws say that all who play in the round stand on one board, and nobody
//! else.
//!
//! Rows and boards are put in order one by one (`all_in_order`, which also orders what other crates show), so the time
//! grows with the square of their number. A row keeps a value for each key. For each row, direct encounter looks at
//! each two of those who are level with it, round by round.
//!
//! To mind: rounds count from 1, and a player is named by their start rank. Scores, direct encounter and Buchholz are
//! half points, Sonneborn-Berger quarters of a point. A key that says nothing of a player has no value, and that is not
//! 0. A board whose black is 0 is a bye.
#![tactic(auto)]

mod board;
mod fault;
mod games;
mod key;
mod keys;
mod ranking;
mod refusals;
mod row;
mod standings;

pub use board::{Board, boards_of};
pub use fault::TieFault;
pub use key::Key;
pub use ranking::{Placed, all_in_order};
pub use refusals::has_standings;
pub use row::Row;
pub use standings::{Standings, rows_of, table};
