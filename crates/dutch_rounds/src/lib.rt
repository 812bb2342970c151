//! Pairings of a round by the FIDE (Dutch) System (C.04.3): who can be paired out, and who meets whom, specified by
//! lists of pairs.
//!
//! `pair_round` gives the boards of the round that the definitions name, or that there is no pairing, which it says
//! only if the present players cannot be paired out. `bracket_at` gives one bracket of that round, `stages` all of
//! them; `completes`, `choose`, `boards` and `lookahead::quality` give the parts. What is proved of the definitions
//! alone stands in `pairing_laws`.
//!
//! Each bracket may make so many steps as its budget has. If they are used up, the answer is undecided, and never
//! another pairing. It is not proved that some number of steps decides a bracket.
//!
//! Who finds the best candidate of a shape is a type parameter of the calls that choose: a `Finder`, as
//! `dutch_search::WithFloors`. They promise the same by each.
//!
//! Lists are arrays with room for 1,024 numbers. On the heap are the boards, the brackets of a round in an arena as long
//! as it is paired, for a bracket some bits for each two players, one lister of candidates for all brackets, a matching
//! while it is looked for, and what a finder keeps there. If memory is refused, a call says so; only are players then
//! paired out by the search without a matching, and a finder may do without what it would keep.
//!
//! To mind: players are named by seat in a field, by number from 1 in a bracket, and by start rank on boards alone.
#![tactic(auto)]

mod barrier;
pub mod boards;
mod instead;
mod items;
pub mod laws;
mod lower;
mod round;
mod stage;
mod walk;

pub use barrier::{Barrier, barrier_of, lacks_bye};
pub use dutch_bracket::{
    Answer, BracketKind, ByNumber, ITEMS, Item, NextValue, Pair, PairFault, Quality, Reached,
    Seats, split_first_group,
};
pub use dutch_candidates::wish::Wish;
pub use dutch_candidates::{are_left, is_next};
pub use dutch_choice::{Choice, Finder, choose, lookahead};
pub use dutch_completion::{completes, seats};
pub use instead::{Instead, best_instead};
pub use items::who_counts;
pub use lower::lower_of;
pub use round::{AllStages, BracketAt, Outcome, bracket_at, pair_round, stages};
pub use stage::Stage;
