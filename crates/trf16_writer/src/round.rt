// Pairing the next round of a report: who meets whom in it, and the points so far.
ghost use Rattle.std.specs.Prelude.{◌≡◌, ◌+◌, ◌<◌, ◌≤◌, ◌&&◌, ◌↔◌, ◌∷◌, [], nat_eq, IfOk, IsTrue, length};
ghost use Rattle.std.specs.Prelude.{option_map, sum_by, take};
ghost use Rattle.std.specs.List.{list_any};
ghost use Rattle.trf16_report.specs.Sheet.{entry_of, half_points, rounds_played};
ghost use Rattle.trf16_writer.specs.Steps.{is_free, are_free};
ghost use Rattle.trf16_report.specs.Round.{CanBePaired, named_by, cell_on, cell_by, with_cell, cells_with, entry_with};
ghost use Rattle.trf16_report.specs.Round.{with_round};
ghost use Rattle.trf16_report.specs.declared.limits.TheConstants.{MOST_ROUNDS};

use crate::turn::{Turn, report_turned};
use std::alloc::{AllocError, Global};
use trf16_report::{Bye, Cell, Colour, MOST_ROUNDS, Player, Report, front};

// What a board gives a player, if it names them.
fn cell_on(board: (u16, u16), start: u16) -> Option<Cell>
    ensures { result ≡ cell_on board start }
{
    let (white, black) = board;
    if white == start && black == 0 {
        return Some(Cell::Bye(Bye::Allocated));
    }
    if white == start {
        return Some(Cell::Unfinished {
            opponent: black,
            colour: Colour::White,
        });
    }
    if black == start {
        return Some(Cell::Unfinished {
            opponent: white,
            colour: Colour::Black,
        });
    }
    None
}

// What the first board that names a player gives them.
fn cell_by(boards: &[(u16, u16)], start: u16) -> Option<Cell>
    ensures { result ≡ cell_by boards.now start }
{
    for board in boards {
        if let Some(cell) = cell_on(*board, start) {
            return Some(cell);
        }
    }
    None
}

// The cells of a player with one more set: that of the round behind the first `before`.
pub(crate) fn with_cell(
    alloc: Global,
    cells: &[Cell],
    before: u8,
    cell: Cell,
) -> Result<Vec<Cell>, AllocError>
    requires few { length cells.now ≤ MOST_ROUNDS }
    requires within { before < MOST_ROUNDS }
    ensures set { IfOk result (λ set. set.items ≡ with_cell before cell cells.now) }
    ensures few { IfOk result (λ set. length set.items ≤ MOST_ROUNDS) }
{
    let mut set = Vec::from_slice(alloc, cells)?;
    let place = usize::from(before);
    while set.len() <= place {
        set.push(Cell::Blank)?;
    }
    set[place] = cell;
    Ok(set)
}

// The cells of a player, where `before` rounds were paired and the boards are the next.
fn cells_with(
    alloc: Global,
    boards: &[(u16, u16)],
    before: u8,
    player: &Player<'_>,
) -> Result<Vec<Cell>, AllocError>
    requires within { before < MOST_ROUNDS }
    ensures cells { IfOk result (λ cells. cells.items ≡ cells_with boards.now before (entry_of player.now)) }
    ensures few { IfOk result (λ cells. length cells.items ≤ MOST_ROUNDS) }
{
    match cell_by(boards, player.start) {
        Some(cell) => with_cell(alloc, &player.cells, before, cell),
        None => Vec::from_slice(alloc, &player.cells),
    }
}

// Black 0 is nobody: white has the bye.
fn is_naming(board: (u16, u16), start: u16) -> bool
    ensures { result ≡ list_any (nat_eq start) (named_by (board ∷ [])) }
{
    let (white, black) = board;
    if start == white {
        return true;
    }
    black != 0 && start == black
}

fn are_naming(boards: &[(u16, u16)], start: u16) -> bool
    ensures { result ≡ list_any (nat_eq start) (named_by boards.now) }
{
    for board in boards {
        if is_naming(*board, start) {
            return true;
        }
    }
    false
}

// A round names each player once, so whoever a later board names is not free.
fn is_free(report: &Report<'_>, start: u16, later: &[(u16, u16)]) -> bool
    ensures { result ≡ is_free report.now (named_by later.now) start }
{
    if !report.knows(start) || report.absent(start) {
        return false;
    }
    !are_naming(later, start)
}

// Both players of a board, who must be two, or the one who has the bye.
fn are_free(report: &Report<'_>, board: (u16, u16), later: &[(u16, u16)]) -> bool
    ensures { (result && are_free report.now (named_by later.now))
        ≡ are_free report.now (named_by (board ∷ later.now)) }
{
    let (white, black) = board;
    if !is_free(report, white, later) {
        return false;
    }
    if black == 0 {
        return true;
    }
    white != black && is_free(report, black, later)
}

/// A points field that is not blank becomes the sum of the first rounds.
pub(crate) fn points_with(
    report: &Report<'_>,
    points: Option<u16>,
    cells: &[Cell],
    rounds: u8,
) -> Option<u16>
    requires { length cells.now ≤ MOST_ROUNDS }
    ensures { result ≡ option_map (λ _. sum_by (half_points report.now.bye) (take rounds cells.now)) points }
{
    match points {
        Some(_) => Some(report.points_over(front(cells, rounds))),
        None => None,
    }
}

/// A player with their cell of the next round and their points.
pub(crate) fn player_with<'a>(
    alloc: Global,
    report: &Report<'a>,
    boards: &[(u16, u16)],
    player: &Player<'a>,
) -> Result<Player<'a>, AllocError>
    requires { rounds_played report.now < MOST_ROUNDS }
    ensures { IfOk result (λ paired. entry_of paired
        ≡ entry_with report.now.bye boards.now (rounds_played report.now) (entry_of player.now)) }
{
    let before = report.rounds_played();
    let cells = cells_with(alloc, boards, before, player)?;
    Ok(Player {
        start: player.start,
        line: player.line,
        points: points_with(report, player.points, &cells, before + 1),
        left: player.left,
        right: player.right,
        cells,
    })
}

/// True exactly if the boards can be the next round of a report: whoever they name is a player of it, is present, and
/// is named once; and the last round that there can be is not paired yet.
pub fn can_be_paired(report: &Report<'_>, boards: &[(u16, u16)]) -> bool
    ensures { IsTrue result ↔ CanBePaired boards.now report.now }
{
    if MOST_ROUNDS <= usize::from(report.rounds_played()) {
        return false;
    }
    for (i, board) in boards.iter().enumerate() {
        if !are_free(report, *board, boards.split_at(i + 1).1) {
            return false;
        }
    }
    true
}

/// A report with its next round paired. A board is white and black in start ranks; if black is 0, white has the
/// pairing-allocated bye. Each points field that is not blank becomes the sum over the rounds up to the next.
///
/// # Errors
/// Memory was refused.
pub fn with_round<'a>(
    alloc: Global,
    report: &Report<'a>,
    boards: &[(u16, u16)],
) -> Result<Report<'a>, AllocError>
    requires { CanBePaired boards.now report.now }
    ensures { IfOk result (λ paired. paired ≡ with_round boards.now report.now) }
{
    report_turned(alloc, report, Turn::Paired(boards))
}
