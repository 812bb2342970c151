// What the rounds that were paired say of a player: score, floats, colours, opponents, the bye (C.04.3 A.2, A.4, A.6,
// C.1, C.2).
ghost use Rattle.std.specs.Prelude.{◌≡◌, ◌≤◌, length, IfOk, vec_len};
ghost use Rattle.std.specs.List.{list_any};
ghost use Rattle.dutch_player.specs.Histories.{colour_played, colours_played, opponent_played, opponents};
ghost use Rattle.dutch_player.specs.Histories.{bars_bye, may_bye, float_between, float_by, float_in};
ghost use Rattle.trf16_report.specs.declared.limits.TheConstants.{MOST_ROUNDS};

use crate::float::Float;
use std::alloc::{AllocError, Global};
use trf16_report::{Bye, Cell, Colour, Report, cell_at, front};

/// The colour of a game that was played; that of a forfeit is none.
pub fn colour_played(cell: &Cell) -> Option<Colour>
    ensures { result ≡ colour_played cell.now }
{
    match cell {
        Cell::Game { colour, .. } => Some(*colour),
        _ => None,
    }
}

/// The colours of the games played, the last game first.
pub(crate) fn colours_played(alloc: Global, cells: &[Cell]) -> Result<Vec<Colour>, AllocError>
    ensures value { IfOk result (λ v. v.items ≡ colours_played cells.now) }
    ensures shorter { IfOk result (λ v. vec_len v ≤ length cells.now) }
{
    cells
        .iter()
        .rev()
        .filter_map(|cell| colour_played(cell))
        .collect(alloc)
}

/// The start rank, 1 to 9999, of the opponent in a game that was played; a forfeit is no meeting (C.1).
pub fn opponent_played(cell: &Cell) -> Option<u16>
    ensures { result ≡ opponent_played cell.now }
{
    match cell {
        Cell::Game { opponent, .. } => Some(*opponent),
        _ => None,
    }
}

/// The start ranks of those whom the player has met.
pub(crate) fn opponents(alloc: Global, cells: &[Cell]) -> Result<Vec<u16>, AllocError>
    ensures { IfOk result (λ v. v.items ≡ opponents cells.now) }
{
    cells
        .iter()
        .filter_map(|cell| opponent_played(cell))
        .collect(alloc)
}

/// Yes if whoever has this cell may not have the pairing-allocated bye later: it is one, a forfeit win, or a requested
/// bye of a full point (C.2).
pub fn bars_bye(cell: &Cell) -> bool
    ensures { result ≡ bars_bye cell.now }
{
    match cell {
        Cell::Bye(Bye::Full | Bye::Allocated) => true,
        Cell::Forfeit { won, .. } => *won,
        _ => false,
    }
}

fn has_bar(cells: &[Cell]) -> bool
    ensures { result ≡ list_any bars_bye cells.now }
{
    cells.iter().any(|cell| bars_bye(cell))
}

/// The bye is the pairing-allocated one (C.2).
pub(crate) fn may_bye(cells: &[Cell]) -> bool
    ensures { result ≡ may_bye cells.now }
{
    !has_bar(cells)
}

fn float_between(mine: u16, theirs: u16) -> Option<Float>
    ensures { result ≡ float_between mine theirs }
{
    if theirs < mine {
        return Some(Float::Down);
    }
    if mine < theirs { Some(Float::Up) } else { None }
}

fn float_by(report: &Report<'_>, cells: &[Cell], before: u8, cell: &Cell) -> Option<Float>
    requires { length cells.now ≤ MOST_ROUNDS }
    ensures { result ≡ float_by report.now cells.now before cell.now }
{
    match opponent_played(cell) {
        Some(opponent) => float_between(
            report.points_over(front(cells, before)),
            report.points(opponent, before),
        ),
        None => Some(Float::Down),
    }
}

/// The float of a round; before round 1 there is none.
pub(crate) fn float_in(report: &Report<'_>, cells: &[Cell], round: u8) -> Option<Float>
    requires { length cells.now ≤ MOST_ROUNDS }
    ensures { result ≡ float_in report.now cells.now round }
{
    if round == 0 {
        return None;
    }
    float_by(report, cells, round - 1, &cell_at(cells, round))
}
