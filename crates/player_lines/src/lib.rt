//! Lines on one player, as text for people: what they bring to the round, and what stands against a meeting or a bye,
//! whatever is chosen in a bracket.
//!
//! `put_player` puts what a player brings to the round. `against_meeting` and `against_bye` give what stands against it
//! first (C.04.3 C.1 to C.3).
//!
//! To mind: no round is paired here. A call that makes a text needs memory for it, and fails if that is refused.
#![tactic(auto)]

mod obstacle;
mod player_line;

pub use obstacle::{Obstacle, against_bye, against_meeting, put_obstacle};
pub use player_line::{put_absent, put_player};
