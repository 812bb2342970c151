//! What each player is before the next round: score, floats, colour preference, whom they may meet and with which
//! colour (C.04.3, articles A, C.1 to C.3 and E), seen as plain facts by rank.
//!
//! `Field::new` finds the present players of a report, by rank, or tells the first reason, in one stated order, why
//! there is no further round. A question to a `Field` gives the value of its definition over the facts of its players.
//! Laws say that meeting and colours are symmetric, and that the seats are the present players, each once.
//!
//! A `Field` keeps no slice of the report; for each player it keeps the colours of their games, whom they met, and from
//! whom they are kept apart. The players are put in order one by one, so the time to make it grows with the square of
//! their number. The time of a question grows with the games of one or two players, and with the number of those from
//! whom they are kept apart.
//!
//! To mind: a player is named by their seat, the place by rank from 0, and not by their start rank. Scores are half
//! points.
#![tactic(auto)]

mod colour_rule;
mod colours;
mod fault;
mod field;
mod float;
mod history;
pub mod laws;
mod meetings;
mod nobody;
mod preference;
mod present;
mod ranking;
mod refusals;
mod seat;
mod start_rank;

pub use colour_rule::ColourRule;
pub use fault::FieldFault;
pub use field::Field;
pub use float::Float;
pub use history::{bars_bye, colour_played, opponent_played};
pub use preference::{Pref, Strength};
