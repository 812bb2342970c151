//! Pairings of a round by the FIDE (Dutch) System (C.04.3): who can be paired out, what a candidate is worth, what is
//! chosen in a bracket, and who meets whom, specified by lists of pairs.
//!
//! `pair_round` gives the boards of the next round of a field, `bracket_at` one bracket of it and `stages` all of them;
//! `completes`, `quality`, `choose` and `LookAhead` give the parts. What explains a round is here too: `best_instead`,
//! `barrier_of`, `lacks_bye`, `who_counts`. The laws that `calls` has give what some calls require.
//!
//! This crate is a front: it hands on what stands in `dutch_rounds` and in the crates below it, and the definitions
//! that the clauses of its calls name, as `Rattle.dutch_pair.specs.Prelude`. So a caller names this crate alone. Calls
//! that choose do so by the finder of `dutch_search`; those of `dutch_rounds` promise the same by any finder.
//!
//! Each bracket may make so many steps as its budget has. If they are used up, the answer is undecided, and never
//! another pairing. It is not proved that some number of steps decides a bracket.
//!
//! To mind: players are named by seat in a field, by number from 1 in a bracket, and by start rank on boards alone.
#![tactic(auto)]

mod choosing;
mod pairing;

pub use choosing::{best_instead, choose};
pub use dutch_choice::lookahead::quality;
pub use dutch_completion::seats::{BySeat, seats};
pub use dutch_passes::{Look, LookAhead};
pub use dutch_rounds::boards::Board;
pub use dutch_rounds::{
    AllStages, Answer, Barrier, BracketAt, BracketKind, ByNumber, Choice, ITEMS, Instead, Item,
    NextValue, Outcome, PairFault, Quality, Reached, Seats, Stage, Wish, are_left, barrier_of,
    completes, is_next, lacks_bye, lower_of, split_first_group, who_counts,
};
pub use pairing::{bracket_at, pair_round, stages};
pub use pairing_laws::calls;
