// The rounds that were paired, seen from one player: whom they met, and whose score a round counts.
ghost use Rattle.std.specs.Prelude.{◌≡◌, ◌<◌, ◌≤◌};
ghost use Rattle.trf16_report.specs.Prelude.{rounds_played};
ghost use Rattle.tables.specs.Games.{is_game_with, have_met, virtual_score, opponent_score};

use trf16_report::{Cell, Report};

fn is_game_with(cell: &Cell, other: u16) -> bool
    ensures { result ≡ is_game_with other cell.now }
{
    match cell {
        Cell::Game { opponent, .. } => *opponent == other,
        _ => false,
    }
}

/// A forfeit is no meeting.
#[tactic(auto, using(crate::proofs::RoundLemmas::next))]
pub(crate) fn have_met(report: &Report<'_>, a: u16, b: u16) -> bool
    ensures { result ≡ have_met report.now a b }
{
    let rounds = report.rounds_played();
    for before in 0..rounds {
        if is_game_with(&report.cell(a, before + 1), b) {
            return true;
        }
    }
    false
}

// The half points of the virtual opponent in a round without a game.
fn virtual_score(report: &Report<'_>, start: u16, round: u8) -> u32
    requires from_one { 0 < round }
    requires paired { round ≤ rounds_played report.now }
    ensures value { result ≡ virtual_score report.now start round }
    ensures few { result ≤ 65792 }
{
    let rounds = report.rounds_played();
    let missed = 2 - report.cell(start, round).half_points(report.bye());
    u32::from(report.points(start, round - 1)) + u32::from(missed) + u32::from(rounds - round)
}

/// The score of a player's opponent in a round, in half points.
pub(crate) fn opponent_score(report: &Report<'_>, start: u16, round: u8) -> u32
    requires from_one { 0 < round }
    requires paired { round ≤ rounds_played report.now }
    ensures value { result ≡ opponent_score report.now start round }
    ensures few { result ≤ 65792 }
{
    match report.cell(start, round) {
        Cell::Game { opponent, .. } => u32::from(report.points(opponent, report.rounds_played())),
        _ => virtual_score(report, start, round),
    }
}
