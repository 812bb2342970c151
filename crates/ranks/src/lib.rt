//! The canonical text of a report with the players' places in its rank columns, 86 to 89 of a player's line. Specified
//! by the report with them: the place of a player is where their row stands in the standings of that report.
//!
//! `ranked_text` gives the text of a report as it is, and `renumbered_ranked_text` that of the report with new start
//! ranks, whose standings go by the new ones where all keys are level. Both rank a report also if it has no standings:
//! `tables::has_standings` tells that. Laws in `report_laws` say that the places change no standings.
//!
//! To mind: a call that takes memory says so if it is refused. The time grows as that of the standings does, and with
//! the square of the number of players.
#![tactic(auto)]

mod placing;
mod ranked;
mod texts;

pub use ranked::{ranked_text, renumbered_ranked_text};
