// Tests of the searches of `matching` and `cheapest`: that what they find is as great or as cheap as can be, and that
// the labels and certificates show it, which no clause says; and how many pairs are asked about where a certificate is
// checked again or by kinds of players. They stand in a crate of their own, since a crate with tests is proved twice.
#![tactic(auto)]

#[cfg(test)]
mod by_class_tests;
#[cfg(test)]
mod cheapest_tests;
#[cfg(test)]
mod class_tests;
#[cfg(test)]
mod matching_tests;
#[cfg(test)]
mod warm_tests;
