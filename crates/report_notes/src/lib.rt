//! What of an accepted report looks like a mistake, though it is none of the format: numbers that no player has, lines
//! of unknown kinds, lines that begin with a blank, players who look alike, games without a result, and rounds that
//! nobody asks for. Specified by the list of these, line by line.
//!
//! `Place::first` is the place in front of a report's lines, and `next_note` gives the next note behind a place, with
//! the place behind it. So notes come one by one, each once and in the order of the lines.
//!
//! Nothing is kept but the place, and nothing here takes memory. All notes together take time in step with the text;
//! and for each line of a player, with all players and with the rounds that were paired.
//!
//! To mind: the bytes are those of the report that is asked. Of other bytes the notes are still what the definition
//! says, by the players of this report.
#![tactic(auto)]

mod closing;
mod doubles;
mod encoding;
mod extension;
mod fields;
mod first_kind;
mod games;
mod kinds;
mod line;
mod names;
mod note;
mod person;
mod place;
mod player_line;
mod player_round;
mod player_rounds;
mod points;
mod ratings;
mod refusal;
mod repeated;
mod rounds;
mod two_cells;
mod walk;

pub use doubles::Identity;
pub use encoding::{ByteOrder, byte_order, zero_byte};
pub use extension::{Extension, extension_at};
pub use first_kind::first_kind_note;
pub use note::{Note, RoundNote};
pub use place::Place;
pub use refusal::{
    Columns, Sums, are_lines_read, columns_of, has_characters, line_in, line_of, sums_of, text_at,
};
pub use repeated::{Repeated, first_saying, repeated_at};
pub use two_cells::{cell_held, opponent_held};
pub use walk::next_note;
