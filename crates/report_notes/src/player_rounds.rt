// What of a player's rounds looks like a mistake, one round after the other.
ghost use Rattle.std.specs.Prelude.{◌≡◌, ◌<◌, ℕ, ◌∷◌, [], MatchOption};
ghost use Rattle.trf16_report.specs.Prelude.{Sheet, rounds_played};
ghost use Rattle.trf16_report.specs.declared.limits.TheConstants.{MOST_ROUNDS};
ghost use Rattle.report_notes.specs.Notes.{rounds_notes};
ghost use Rattle.report_notes.specs.NoteOf.{noted, player_rounds_left_notes, round_left_notes};

use crate::note::Note;
use crate::player_round::{RoundLeft, next_of_round, round_left};
use trf16_report::Report;

/// What is left to tell of a player's rounds.
#[derive(Clone, Copy)]
pub(crate) struct PlayerRoundsLeft {
    // the player
    pub(crate) start: u16,
    // the round in hand; 0 in front of the first
    pub(crate) round: u8,
    // what is left to tell of it
    pub(crate) here: RoundLeft,
}

impl PlayerRoundsLeft {
    /// All of the player with a start rank.
    pub(crate) fn all(start: u16) -> PlayerRoundsLeft
        ensures { (sheet : Sheet) → (n : ℕ) → player_rounds_left_notes sheet n result ≡ rounds_notes sheet n start 0 }
    {
        PlayerRoundsLeft {
            start,
            round: 0,
            here: RoundLeft::nothing(),
        }
    }

    // What is left behind the round in hand.
    fn behind_round(self, report: &Report<'_>) -> PlayerRoundsLeft
        requires within { self.round < rounds_played report.now }
        requires few { self.round < MOST_ROUNDS }
        ensures same { round_left_notes self.here ≡ []
            → (n : ℕ) → player_rounds_left_notes report.now n result ≡ player_rounds_left_notes report.now n self }
        ensures further { self.round < result.round }
    {
        let round = self.round + 1;
        PlayerRoundsLeft {
            round,
            here: round_left(report, self.start, round),
            ..self
        }
    }
}

/// The first note that is left of a player's rounds, of line n, and what is left behind it.
pub(crate) fn next_of_player_rounds<'a>(
    report: &Report<'_>,
    n: usize,
    left: PlayerRoundsLeft,
) -> Option<(Note<'a>, PlayerRoundsLeft)>
    ensures { MatchOption result (player_rounds_left_notes report.now n left ≡ [])
        (λ x. player_rounds_left_notes report.now n left ≡ noted x.0 ∷ player_rounds_left_notes report.now n x.1) }
{
    let mut at = left;
    loop {
        if let Some((what, here)) = next_of_round(at.here) {
            let note = Note::InRound {
                line: n,
                round: at.round,
                what,
            };
            return Some((note, PlayerRoundsLeft { here, ..at }));
        }
        if report.rounds_played() <= at.round {
            return None;
        }
        at = at.behind_round(report);
    }
}
