//! Laws on the present players of a report, on its standings, on the report with the players' places, on the report as
//! it stood before a round, on the boards of a round, on the report with new start ranks, and on what looks like a
//! mistake in a report: what holds of the definitions, beyond what one call promises.
//!
//! Each law is a function whose contract is the law, and its body is empty or reads what the law is about. No other
//! crate uses them. They tie the definitions of `trf16_report` on earlier rounds to those of the crates above it, which
//! `trf16_report` itself cannot name. Those on players, on standings, on start ranks and on mistakes stand here so that
//! nothing waits for their proofs.
#![tactic(auto)]

pub mod notes;
pub mod paired;
pub mod places;
pub mod players;
pub mod renumbered;
pub mod standings;
pub mod views;
