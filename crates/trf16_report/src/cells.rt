// The cells of a player, which stand for the rounds from 1 on: one of them, the first of them, and what they come to.
ghost use Rattle.std.specs.Prelude.{◌≡◌, ◌<◌, ◌≤◌, ◌*◌, length, sum_by, take};
ghost use Rattle.trf16_report.specs.Sheet.{cell_at, half_points, is_paired, last_paired};
ghost use Rattle.trf16_report.specs.Fields.{without_last};
ghost use Rattle.trf16_report.specs.Verdict.{is_blank_cell};
ghost use Rattle.trf16_report.specs.Unfinished.{is_unfinished, first_unfinished};
ghost use Rattle.trf16_report.specs.declared.limits.TheConstants.{MOST_ROUNDS};

use crate::cell::{Bye, Cell};

/// The cell of a round, which counts from 1; behind the last it is blank.
pub fn cell_at(cells: &[Cell], round: u8) -> Cell
    requires { 0 < round }
    ensures { result ≡ cell_at cells.now round }
{
    cells
        .get(usize::from(round) - 1)
        .copied()
        .unwrap_or(Cell::Blank)
}

/// The cells of the first rounds.
pub fn front(cells: &[Cell], rounds: u8) -> &[Cell]
    ensures value { result.now ≡ take rounds cells.now }
    ensures shorter { length result.now ≤ length cells.now }
{
    cells.split_at(cells.len().min(usize::from(rounds))).0
}

/// The half points of some rounds, if the pairing-allocated bye gives `bye`, 0 to 2.
pub(crate) fn points_of(cells: &[Cell], bye: u16) -> u16
    requires rounds { length cells.now ≤ MOST_ROUNDS }
    requires worth { bye ≤ 2 }
    ensures value { result ≡ sum_by (half_points bye) cells.now }
    ensures few { result ≤ 2 * MOST_ROUNDS }
{
    let mut sum = 0;
    for cell in cells {
        sum += cell.half_points(bye);
    }
    sum
}

fn is_paired(cell: &Cell) -> bool
    ensures { result ≡ is_paired cell.now }
{
    match cell {
        Cell::Blank | Cell::Bye(Bye::Half | Bye::Full | Bye::Zero) => false,
        Cell::Bye(Bye::Allocated)
        | Cell::Game { .. }
        | Cell::Forfeit { .. }
        | Cell::Unfinished { .. } => true,
    }
}

/// The last round in which one of some cells is paired.
pub(crate) fn last_paired(cells: &[Cell]) -> u8
    requires { length cells.now ≤ MOST_ROUNDS }
    ensures value { result ≡ last_paired cells.now }
    ensures within { result ≤ length cells.now }
{
    let mut last = 0;
    for (i, cell) in cells.iter().enumerate() {
        if is_paired(cell) {
            last = i as u8 + 1;
        }
    }
    last
}

/// Yes for a game without a result.
pub fn is_unfinished(cell: &Cell) -> bool
    ensures { result ≡ is_unfinished cell.now }
{
    match cell {
        Cell::Unfinished { .. } => true,
        _ => false,
    }
}

/// The first round with a game that has no result.
pub(crate) fn first_unfinished(cells: &[Cell]) -> Option<usize>
    requires { length cells.now ≤ MOST_ROUNDS }
    ensures { result ≡ first_unfinished 1 cells.now }
{
    for (i, cell) in cells.iter().enumerate() {
        if is_unfinished(cell) {
            return Some(i + 1);
        }
    }
    None
}

fn is_blank_cell(cell: &Cell) -> bool
    ensures { result ≡ is_blank_cell cell.now }
{
    match cell {
        Cell::Blank => true,
        _ => false,
    }
}

/// How many cells there are up to the last that is not blank.
pub fn said_len(cells: &[Cell]) -> usize
    ensures value { take result cells.now ≡ without_last is_blank_cell cells.now }
    ensures within { result ≤ length cells.now }
{
    let mut len = 0;
    for (i, cell) in cells.iter().enumerate() {
        if !is_blank_cell(cell) {
            len = i + 1;
        }
    }
    len
}
