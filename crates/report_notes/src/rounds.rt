// What of the rounds of a report looks like a mistake, whoever plays in them.
ghost use Rattle.std.specs.Prelude.{◌≡◌, ◌<◌, ◌∷◌, [], false, MatchOption, None};
ghost use Rattle.trf16_report.specs.Prelude.{Sheet, rounds_played};
ghost use Rattle.trf16_report.specs.declared.limits.TheConstants.{MOST_ROUNDS};
ghost use Rattle.report_notes.specs.Rounds.{byes_in, has_no_game, report_rounds_notes};
ghost use Rattle.report_notes.specs.Rounds.{are_all_absent, can_be_played, nobody_notes, several_byes};
ghost use Rattle.report_notes.specs.NoteOf.{noted, rounds_left_notes};

use crate::note::Note;
use crate::player_round::is_allocated;
use trf16_report::{MOST_ROUNDS, Report, cell_at};

/// What is left to tell of the rounds of a report.
#[derive(Clone, Copy)]
pub(crate) struct RoundsLeft {
    // the round in hand; 0 in front of the first
    pub(crate) round: u8,
    // whether it is that the round has no game
    pub(crate) no_game: bool,
    // how many players have the bye of the round, if that is to be told
    pub(crate) byes: Option<usize>,
}

impl RoundsLeft {
    /// All.
    pub(crate) fn all() -> RoundsLeft
        ensures { (sheet : Sheet) → rounds_left_notes sheet result ≡ report_rounds_notes sheet 0 }
    {
        RoundsLeft {
            round: 0,
            no_game: false,
            byes: None,
        }
    }

    // What is left behind the round in hand.
    fn behind_round(self, report: &Report<'_>) -> RoundsLeft
        requires within { self.round < rounds_played report.now }
        requires few { self.round < MOST_ROUNDS }
        ensures same { self.no_game ≡ false → self.byes ≡ None
            → rounds_left_notes report.now result ≡ rounds_left_notes report.now self }
        ensures further { self.round < result.round }
    {
        let round = self.round + 1;
        RoundsLeft {
            round,
            no_game: has_no_game(report, round),
            byes: several_byes(report, round),
        }
    }
}

/// The first note that is left of the rounds of a report, and what is left behind it.
pub(crate) fn next_of_rounds<'a>(
    report: &Report<'_>,
    left: RoundsLeft,
) -> Option<(Note<'a>, RoundsLeft)>
    ensures { MatchOption result (rounds_left_notes report.now left ≡ [])
        (λ x. rounds_left_notes report.now left ≡ noted x.0 ∷ rounds_left_notes report.now x.1) }
{
    let mut at = left;
    loop {
        let round = at.round;
        if at.no_game {
            let after = RoundsLeft {
                no_game: false,
                ..at
            };
            return Some((Note::NoGame { round }, after));
        }
        if let Some(players) = at.byes {
            let after = RoundsLeft { byes: None, ..at };
            return Some((Note::Byes { round, players }, after));
        }
        if report.rounds_played() <= round {
            return None;
        }
        at = at.behind_round(report);
    }
}

fn has_no_game(report: &Report<'_>, round: u8) -> bool
    requires { 0 < round }
    ensures { result ≡ has_no_game report.now round }
{
    for player in report.players() {
        if cell_at(&player.cells, round).opponent().is_some() {
            return false;
        }
    }
    true
}

// How many players have the pairing-allocated bye in a round, if several do.
fn several_byes(report: &Report<'_>, round: u8) -> Option<usize>
    requires { 0 < round }
    ensures { result ≡ several_byes report.now round }
{
    let players = byes_in(report, round);
    (1 < players).then_some(players)
}

// How many players have it.
fn byes_in(report: &Report<'_>, round: u8) -> usize
    requires { 0 < round }
    ensures { result ≡ byes_in report.now round }
{
    let mut count = 0;
    for player in report.players() {
        if is_allocated(&cell_at(&player.cells, round)) {
            count += 1;
        }
    }
    count
}

/// That nobody is present in the round that comes next, if it can be played.
pub(crate) fn nobody_note<'a>(report: &Report<'_>) -> Option<Note<'a>>
    ensures { MatchOption result (nobody_notes report.now ≡ []) (λ note. nobody_notes report.now ≡ noted note ∷ []) }
{
    let round = report.rounds_played() + 1;
    if can_be_played(report, round) && are_all_absent(report) {
        Some(Note::NobodyPresent { round })
    } else {
        None
    }
}

// A report has so many rounds at most, and no line `XXR` names fewer.
fn can_be_played(report: &Report<'_>, round: u8) -> bool
    ensures { result ≡ can_be_played report.now round }
{
    if MOST_ROUNDS < usize::from(round) {
        return false;
    }
    match report.total_rounds() {
        Some(total) => round <= total,
        None => true,
    }
}

// Absent from the round that comes next.
fn are_all_absent(report: &Report<'_>) -> bool
    ensures { result ≡ are_all_absent report.now }
{
    for player in report.players() {
        if !report.absent(player.start) {
            return false;
        }
    }
    true
}
