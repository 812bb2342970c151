//! Lines on what a round is chosen from, as text for people: the round, a bracket, its candidates, the items of a
//! quality. Specified by the texts, and by the first candidates to come.
//!
//! `listing::put_candidates` lists candidates, as many as are asked for, within a budget of steps. `item_texts` and
//! `value_texts` have the items that count against a choice (C.6 to C.19). `pieces` puts lines and sentences together.
//!
//! To mind: no round is paired here. A call that makes a text needs memory for it, and fails if that is refused.
#![tactic(auto)]

mod asked;
mod board_line;
pub mod bracket_texts;
pub mod item_texts;
mod item_words;
pub mod listing;
mod lists;
mod member_lines;
pub mod pieces;
pub mod preference_texts;
mod round_line;
pub mod telling;
pub mod value_texts;

pub use asked::Asked;
pub use board_line::put_board;
pub use member_lines::put_members;
pub use round_line::put_round;
