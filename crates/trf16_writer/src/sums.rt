// A report with each of its points fields summed.
ghost use Rattle.std.specs.Prelude.{◌≡◌, IfOk};
ghost use Rattle.trf16_report.specs.Sheet.{entry_of, rounds_played};
ghost use Rattle.trf16_report.specs.Summed.{entry_summed, summed};

use crate::turn::{Turn, report_turned};
use std::alloc::{AllocError, Global};
use trf16_report::{Player, Report, front};

/// A player whose points field is the sum over the rounds that were paired.
pub(crate) fn player_summed<'a>(
    alloc: Global,
    report: &Report<'a>,
    player: &Player<'a>,
) -> Result<Player<'a>, AllocError>
    ensures { IfOk result (λ player'. entry_of player'
        ≡ entry_summed report.now.bye (rounds_played report.now) (entry_of player.now)) }
{
    let rounds = report.rounds_played();
    Ok(Player {
        start: player.start,
        line: player.line,
        points: Some(report.points_over(front(&player.cells, rounds))),
        left: player.left,
        right: player.right,
        cells: Vec::from_slice(alloc, &player.cells)?,
    })
}

/// The report in which each points field, blank or not, is the sum over the rounds that were paired.
///
/// # Errors
/// Memory was refused.
pub fn summed<'a>(alloc: Global, report: &Report<'a>) -> Result<Report<'a>, AllocError>
    ensures { IfOk result (λ found. found ≡ summed report.now) }
{
    report_turned(alloc, report, Turn::Summed)
}
