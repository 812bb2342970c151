// The games of a player in the standings, round by round.
ghost use Rattle.std.specs.Prelude.{◌≡◌, ◌++◌, OnOk};
ghost use Rattle.replies.specs.GameTexts.{games_labels, games_text};
ghost use Rattle.replies.specs.StandingsAnswers.{rounds_shown};

use crate::table::TableLine;
use common_texts::{Page, RoundOf};
use requests::StandingsOptions;
use std::alloc::AllocError;
use trf16_report::Report;

/// How many rounds are shown of each player: all that were paired, if the games are wanted.
pub fn rounds_shown(options: &StandingsOptions, report: &Report<'_>) -> u8
    ensures { result ≡ rounds_shown options.now report.now }
{
    if options.games {
        report.rounds_played()
    } else {
        0
    }
}

/// Puts the cells of a player in the rounds from 1 up to one, each behind a blank.
pub fn put_games(
    text: &mut Page,
    report: &Report<'_>,
    start: u16,
    rounds: u8,
) -> Result<(), AllocError>
    ensures { OnOk result (text.new ≡ text.old ++ games_text report.now start rounds) }
{
    for round in 0..rounds {
        let game = RoundOf(report.cell(start, round + 1));
        write!(text, " {game}")?;
    }
    Ok(())
}

/// Puts the same, each in the next column of a line.
pub fn push_games(
    line: &mut TableLine,
    report: &Report<'_>,
    start: u16,
    rounds: u8,
) -> Result<(), AllocError>
    ensures { OnOk result (line.new ≡ line.old ++ games_labels report.now start rounds) }
{
    for round in 0..rounds {
        let game = RoundOf(report.cell(start, round + 1));
        write!(line, "{game}")?;
    }
    Ok(())
}
