//! Arrangements of numbers in the order of the Handbook's article D, specified by sorted lists.
//!
//! `Candidates` lists the legal arrangements of a bracket and a shape, each once, in the order of article D; the
//! generators of `dutch_sequence` list the choices of D.1, D.2 and D.3. A call answers the first of what is still to
//! come, the end if nothing is, or that its limit was reached; then what is to come stays as it was.
//!
//! Nothing here knows chess: a `Rule` of the caller says, by numbers, who may meet and who may be left over. A `Budget`
//! counts steps, each a number tried at a place, and no call goes beyond its limit. No proof bounds how many steps lie
//! between two candidates.
//!
//! Nothing takes memory: every list is an array with room for `LIMIT` numbers, 1,024. So a listing is a large value, of
//! some KiB, and is cleared where it is made: keep one, and lend one candidate to be filled (`put_next_within`).
//!
//! To mind: numbers of a bracket count from 1, and the rule answers for all numbers, in either order alike.
#![tactic(auto)]

mod bound;
mod candidates;
mod choices;
mod cuts;
mod levels;
mod past;

pub use bound::Bound;
pub use candidates::Candidates;
pub use cuts::BoundWithRoom;
