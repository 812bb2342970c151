// A present player, and their rank among others (C.04.3 A.2).
ghost use Rattle.std.specs.Prelude.{◌≡◌, ◌≤◌, ◌*◌, vec_len};
ghost use Rattle.trf16_report.specs.declared.limits.TheConstants.{MOST_ROUNDS};
ghost use Rattle.dutch_player.specs.Preferences.{preference as preference_of};

use crate::float::Float;
use crate::preference::Pref;
use trf16_report::Colour;

/// What the rounds that were paired make of a player.
#[derive(Drop)]
pub(crate) struct Seat {
    pub(crate) start: u16,
    // in half points
    pub(crate) score: u16,
    // of the games played, the last game first
    pub(crate) played: Vec<Colour>,
    // what those come to, worked out once
    pub(crate) preference: Option<Pref>,
    // start ranks of those whom they have met
    pub(crate) opponents: Vec<u16>,
    // start ranks of those from whom a line `XXP` keeps them apart
    pub(crate) apart: Vec<u16>,
    // in the last round, and in the one before it
    pub(crate) latest: Option<Float>,
    pub(crate) earlier: Option<Float>,
    pub(crate) may_bye: bool,
    ghost few_points: { score ≤ 2 * MOST_ROUNDS },
    ghost few_games: { vec_len played ≤ MOST_ROUNDS },
    ghost preference_is: { preference ≡ preference_of played.items },
}
