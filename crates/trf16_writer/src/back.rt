// A report as it stood before one of its rounds was paired.
ghost use Rattle.std.specs.Prelude.{◌≡◌, ◌<◌, ◌≤◌, IfOk, length};
ghost use Rattle.trf16_report.specs.BeforeRound.{before_round, cell_back, cells_back, entry_back, taken_back};
ghost use Rattle.trf16_report.specs.Sheet.{entry_of};
ghost use Rattle.trf16_report.specs.declared.limits.TheConstants.{MOST_ROUNDS};

use crate::round::{points_with, with_cell};
use crate::turn::{Turn, report_turned};
use std::alloc::{AllocError, Global};
use trf16_report::{Bye, Cell, Player, Report, cell_at, front, said_len};

// What a cell was before its round was paired.
fn cell_back(cell: Cell) -> Cell
    ensures { result ≡ cell_back cell }
{
    match cell {
        Cell::Blank => Cell::Bye(Bye::Zero),
        Cell::Bye(Bye::Half | Bye::Full | Bye::Zero) => cell,
        Cell::Bye(Bye::Allocated)
        | Cell::Game { .. }
        | Cell::Forfeit { .. }
        | Cell::Unfinished { .. } => Cell::Blank,
    }
}

// The cells of the first `before` rounds, and the next as it was.
fn cells_back(alloc: Global, cells: &[Cell], before: u8) -> Result<Vec<Cell>, AllocError>
    requires few { length cells.now ≤ MOST_ROUNDS }
    requires within { before < MOST_ROUNDS }
    ensures cells { IfOk result (λ back. back.items ≡ cells_back before cells.now) }
    ensures few { IfOk result (λ back. length back.items ≤ MOST_ROUNDS) }
{
    let next = cell_back(cell_at(cells, before + 1));
    let mut back = with_cell(alloc, front(cells, before), before, next)?;
    let len = said_len(&back);
    back.truncate(len);
    Ok(back)
}

/// A player of whom the first `before` rounds stay.
pub(crate) fn player_back<'a>(
    alloc: Global,
    report: &Report<'a>,
    before: u8,
    player: &Player<'a>,
) -> Result<Player<'a>, AllocError>
    requires { before < MOST_ROUNDS }
    ensures { IfOk result (λ back. entry_of back ≡ entry_back report.now.bye before (entry_of player.now)) }
{
    let cells = cells_back(alloc, &player.cells, before)?;
    Ok(Player {
        start: player.start,
        line: player.line,
        points: points_with(report, player.points, &player.cells, before),
        left: player.left,
        right: player.right,
        cells,
    })
}

// The report, of which all rounds behind the first `before` are taken back.
fn taken_back<'a>(alloc: Global, report: &Report<'a>, before: u8) -> Result<Report<'a>, AllocError>
    requires { before < MOST_ROUNDS }
    ensures { IfOk result (λ back. back ≡ taken_back report.now before) }
{
    let turned = report_turned(alloc, report, Turn::TakenBack(before))?;
    Ok(turned.with_bare_absences())
}

/// A report as it stood before a round, which counts from 1. Before the round behind the last that was paired it is the
/// report as it is. Before an earlier one, each player's cells of the rounds in front stay; of the round itself `H`,
/// `F` and `Z` stay, a blank cell becomes `Z`, and a cell with an opponent or `U` becomes blank; later cells go. Each
/// points field that is not blank becomes the sum over the rounds in front, and of a line `XXZ` the first three
/// characters stay. There is none if the round in front was not paired.
///
/// # Errors
/// Memory was refused.
pub fn before_round<'a>(
    alloc: Global,
    report: &Report<'a>,
    round: u8,
) -> Result<Option<Report<'a>>, AllocError>
    ensures { IfOk result (λ found. found ≡ before_round report.now round) }
{
    let Some(before) = round.checked_sub(1) else {
        return Ok(None);
    };
    let rounds = report.rounds_played();
    if before == rounds {
        return Ok(Some(report_turned(alloc, report, Turn::Kept)?));
    }
    if rounds < before {
        return Ok(None);
    }
    let back = taken_back(alloc, report, before)?;
    if back.rounds_played() == before {
        Ok(Some(back))
    } else {
        Ok(None)
    }
}
