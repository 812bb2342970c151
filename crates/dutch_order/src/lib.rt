//! The order of the candidates of a bracket (C.04.3 B.6, B.7, D), for any rule: specified by sorted lists.
//!
//! `Candidates` lists the legal arrangements of a bracket and a shape, each once, in that order, from the first or from
//! behind a `Cursor`; `Transpositions`, `Exchanges` and `LimboExchanges` list the choices of D.1, D.2 and D.3. A call
//! answers the first of what is still to come, the end if nothing is, or that its limit was reached; then what is to
//! come stays as it was. A `Bound` tells a listing which beginnings it may pass over. The law
//! `a_cursor_is_of_its_bracket` gives what `Candidates::from` requires of a cursor that was read.
//!
//! This crate is a front: it hands on what stands in `dutch_sequence`, `dutch_arrangements` and `dutch_listing`, and
//! the definitions that the clauses of its calls name, as `Rattle.dutch_order.specs.Prelude`. So a caller names this
//! crate alone.
//!
//! To mind: numbers of a bracket count from 1, and the rule answers for all numbers, in either order alike. Nothing
//! takes memory, so a listing is a large value, of some KiB.
#![tactic(auto)]

mod laws;

pub use dutch_arrangements::{
    Arrangement, Bracket, Budget, Candidate, Cursor, CursorFault, CursorText, Exchange, Exchanges,
    Filling, Generator, LIMIT, LimboExchanges, Numbers, Prefix, Rule, Shape, Step, Stopped,
    Transpositions, numbered_from,
};
pub use dutch_listing::{Bound, Candidates};
pub use laws::a_cursor_is_of_its_bracket;
