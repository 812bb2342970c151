// Players with new start ranks and new opponents.
ghost use Rattle.std.specs.Prelude.{◌≡◌, map, IfOk};
ghost use Rattle.trf16_report.specs.Prelude.{entry_of, renumbered_cell, renumbered_entry};
ghost use Rattle.trf16_writer.specs.StartTable.{new_in};

use crate::new_starts::NewStarts;
use std::alloc::{AllocError, Global};
use trf16_report::{Cell, Player, Report};

// A cell that names the new start rank of its opponent.
fn renumbered_cell(cell: &Cell, new: &NewStarts) -> Cell
    ensures { result ≡ renumbered_cell (new_in new.now) cell.now }
{
    match *cell {
        Cell::Blank => Cell::Blank,
        Cell::Bye(bye) => Cell::Bye(bye),
        Cell::Game {
            opponent,
            colour,
            rated,
            got,
        } => Cell::Game {
            opponent: new.at(opponent),
            colour,
            rated,
            got,
        },
        Cell::Forfeit {
            opponent,
            colour,
            won,
        } => Cell::Forfeit {
            opponent: new.at(opponent),
            colour,
            won,
        },
        Cell::Unfinished { opponent, colour } => Cell::Unfinished {
            opponent: new.at(opponent),
            colour,
        },
    }
}

// The cells of a player, which name the new start ranks of their opponents.
fn renumbered_cells(alloc: Global, cells: &[Cell], new: &NewStarts) -> Result<Vec<Cell>, AllocError>
    ensures { IfOk result (λ renumbered. renumbered.items ≡ map (renumbered_cell (new_in new.now)) cells.now) }
{
    cells
        .iter()
        .map(|cell| renumbered_cell(cell, new))
        .collect(alloc)
}

/// A player with a new start rank, and new opponents.
pub(crate) fn renumbered_player<'a>(
    alloc: Global,
    player: &Player<'a>,
    new: &NewStarts,
) -> Result<Player<'a>, AllocError>
    ensures { IfOk result (λ renumbered. entry_of renumbered
        ≡ renumbered_entry (new_in new.now) (entry_of player.now)) }
{
    Ok(Player {
        start: new.at(player.start),
        line: player.line,
        points: player.points,
        left: player.left,
        right: player.right,
        cells: renumbered_cells(alloc, &player.cells, new)?,
    })
}

/// All players so, in the order of their lines.
pub(crate) fn renumbered_players<'a>(
    alloc: Global,
    report: &Report<'a>,
    new: &NewStarts,
) -> Result<Vec<Player<'a>>, AllocError>
    ensures { IfOk result (λ players. map entry_of players.items
        ≡ map (renumbered_entry (new_in new.now)) report.now.players) }
{
    let mut players = Vec::new(alloc);
    for player in report.players() {
        players.push(renumbered_player(alloc, player, new)?)?;
    }
    Ok(players)
}
