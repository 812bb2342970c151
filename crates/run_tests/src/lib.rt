// Tests of `run` that need a device of their own or many runs; the other runs are the cases in `crates/cases`. They
// stand in a crate of their own, so that the tests of the crates below need not wait for the command line's proof.
#![tactic(auto)]

#[cfg(test)]
mod command_tests;
#[cfg(test)]
mod hostile_tests;
#[cfg(test)]
mod rows;
#[cfg(test)]
mod steps_tests;
