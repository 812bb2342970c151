//! What is answered where nobody is paired: a status, a text, and perhaps a note. Specified by answers, which are these
//! three, and by how an answer stands on the standard streams.
//!
//! `read_input` reads what a source has, in a counted number of calls. `check::check`, `format::format`,
//! `enter::enter`, `standings::standings` and `sheet::sheet` answer to the bytes of a report. `refusal` has the answers
//! that several commands have, whose lines stand in `refusal_texts`: `refused: `, where it is (the line of the report,
//! or the start rank of a player and perhaps a round), and what it is. `texts` has the other lines of the program's
//! own, and `wall` boards and standings with names. `Reply::write` writes a reply where its status says.
//!
//! To mind: a text is put onto a `Page` whole before a byte of it is written, and if memory is refused, a call says so.
#![tactic(auto)]

mod cells_note;
pub mod check;
pub mod enter;
mod extension_note;
pub mod format;
mod games;
mod input;
mod notes;
mod question;
pub mod refusal;
mod refusal_notes;
mod refusal_texts;
mod repeated_note;
mod reply;
pub mod sheet;
pub mod standings;
mod table;
pub mod texts;
pub mod views;
pub mod wall;

pub use input::{InputFault, read_input};
pub use question::{QuestionFault, question_fault};
pub use reply::{Reply, Status, Text};
