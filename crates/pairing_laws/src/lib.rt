//! Laws of the pairing of a round (C.04.3), and of what it is made of: what holds of the definitions of `dual`,
//! `dutch_arrangements`, `dutch_bracket`, `dutch_choice`, `dutch_weighing`, `dutch_weight_floors` and `dutch_rounds`,
//! beyond what one call promises.
//!
//! Each law is a function with an empty body, or with one call of another law, and its contract is the law. No crate of
//! the program uses them, so none waits for their proofs. `calls` gives what the calls on a bracket ask for, to whoever
//! calls them; `shapes` says by matchings what the shape of a bracket is, and `wishes` what the best candidate is that
//! grants a wish; `forms` says which pairs are those of an arrangement; `examples` tries the definitions on rounds that
//! can be followed by hand. One more law stands in `dutch_rounds` (the boards as the next round of their report).
#![tactic(auto)]

pub mod arrangements;
pub mod brackets;
pub mod calls;
pub mod certificates;
pub mod examples;
pub mod forms;
pub mod rounds;
pub mod shapes;
pub mod weights;
pub mod wishes;
