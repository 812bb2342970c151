//! Reading tournament reports in TRF16 columns, with every refusal named.
//!
//! `read` gives the report that a text is, or the first rule that it breaks, in one stated order. The text is walked
//! over once to read it, or twice if a line `XXP` names players.
//!
//! `all_cells_fit` looks at a report that was made of another one by the rules on two players.
//!
//! To mind: what the pairing-allocated bye is worth does not stand in a report, so `read_with` is told it. A call that
//! takes memory says so if it is refused.
#![tactic(auto)]

mod answering;
mod grammar;
mod reading;

pub use answering::all_cells_fit;
pub use reading::{read, read_unsummed, read_with};
