//! Tournament reports in TRF16 columns: read with every refusal named, asked what they say, and written again, by one
//! name. Specified by the grammar of the columns and by what a report's lines say.
//!
//! `read` gives the report that a text is, or the first rule that it breaks; a question to a `Report` gives the value
//! of its definition over the lines; `write` gives the canonical text. `before_round`, `summed` and `Pairs::with_round`
//! make another report of one, and `renumbered_text` the text of one with the right start ranks.
//!
//! This crate is a front: it hands on what stands in `trf16_report`, `trf16_reader` and `trf16_writer`, and the
//! definitions that the clauses of its calls name, as `Rattle.trf16.specs.Prelude`. So a caller names this crate alone.
//!
//! To mind: points are half points, rounds count from 1, and a player is named by their start rank. A call that takes
//! memory says so if it is refused.
#![tactic(auto)]

mod pairs;

pub use pairs::Pairs;
pub use trf16_reader::{read, read_unsummed, read_with};
pub use trf16_report::{
    Bye, Cell, Colour, Counted, Excess, Failed, Fault, GameOutcome, LineKind as Kind, MOST_BYTES,
    MOST_PLAYERS, MOST_ROUNDS, Player, Report, Sink, Source,
};
pub use trf16_writer::{before_round, can_be_paired, first_unread, renumbered_text, summed, write};
