//! Callers of the fronts `trf16`, `dutch_order`, `dutch_pair` and `tiebreak`, and of `dutch_player`: tests that name
//! these crates alone, and show each public call once in use. Their values come from the rules, worked out by hand.
//! They stand in a crate of their own, since a crate with tests is proved twice.
#![tactic(auto)]

#[cfg(test)]
mod candidate_tests;
#[cfg(test)]
mod choice_tests;
#[cfg(test)]
mod completion_tests;
#[cfg(test)]
mod device_tests;
#[cfg(test)]
mod generator_tests;
#[cfg(test)]
mod look_ahead_tests;
#[cfg(test)]
mod player_tests;
#[cfg(test)]
mod report_tests;
#[cfg(test)]
mod reports;
#[cfg(test)]
mod round_tests;
#[cfg(test)]
mod rules;
#[cfg(test)]
mod standings_tests;
