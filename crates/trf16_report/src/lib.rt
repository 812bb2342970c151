//! Tournament reports in TRF16 columns, and what they say. The crate `trf16_reader` reads them; `trf16_writer` writes
//! them, and makes a report of another one.
//!
//! A question to a `Report` gives the value of its definition over the report's lines. While its lines are read, a
//! report is a `Draft`, and what they say beside that stands in `Notes`.
//!
//! A report borrows its text. Beside the text it keeps its players with their cells, at most 1,024 players of 64
//! rounds; a mark for each start rank; and if a line `XXP` names players, a mark for each two players. Questions do not
//! walk over the text again, except `carried`, and `apart` of a number that no player has.
//!
//! To mind: points are half points, rounds count from 1, and a player is named by their start rank. A call that takes
//! memory says so if it is refused.
#![tactic(auto)]

mod apart;
mod carried_lines;
mod cell;
mod cells;
mod columns;
mod devices;
mod draft;
mod extensions;
mod fault;
mod fields;
mod keeping_apart;
mod kind;
mod limits;
mod lines;
mod made;
mod marking;
mod named;
mod names;
mod notes;
mod noting;
mod output;
mod player;
mod queries;
mod report;
mod start_ranks;

pub use apart::Apart;
pub use carried_lines::CarriedLines;
pub use cell::{Bye, Cell, Colour, GameOutcome};
pub use cells::{cell_at, front, is_unfinished, said_len};
pub use columns::{Line, column_count, is_blank, split_columns, split_kind};
pub use devices::{Counted, Failed, MOST_COUNTED, Sink, Source};
pub use draft::Draft;
pub use extensions::{are_start_ranks, colour_in, is_word, rounds_in};
pub use fault::{Excess, Fault};
pub use fields::{next_word, number_in, number_of, points_in, trimmed, without_blanks};
pub use kind::LineKind;
pub use limits::{LAST_COLUMN, MOST_BYTES, MOST_PLAYERS, MOST_ROUNDS};
pub use lines::{next_line, skip_marks};
pub use notes::Notes;
pub use output::put_all;
pub use player::Player;
pub use report::Report;
