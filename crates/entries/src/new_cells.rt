// The cells that the entries so far put, and what stands in a round with them.
ghost use Rattle.std.specs.Prelude.{◌≡◌, ◌<◌, ◌||◌};
ghost use Rattle.entries.specs.Entered.{may_be_put};
ghost use Rattle.entries.specs.Games.{same_bye, same_cell, same_colour, same_colours, same_outcome};
ghost use Rattle.entries.specs.NewCells.{cell_after, cell_now, is_named, is_put, same_slot};
ghost use Rattle.trf16_report.specs.Prelude.{is_blank_cell, is_unfinished};

use crate::entry::{NewCell, Slot};
use trf16_report::{Bye, Cell, Colour, GameOutcome, Report};

// Two slots are one.
fn same_slot(slot: Slot, other: Slot) -> bool
    ensures { result ≡ same_slot slot other }
{
    slot.player == other.player && slot.round == other.round
}

/// Yes if an entry so far names the player in the round.
pub(crate) fn is_named(so_far: &[NewCell], slot: Slot) -> bool
    ensures { result ≡ is_named so_far.now slot }
{
    so_far
        .iter()
        .any(|new| same_slot(new.slot, slot) && new.named)
}

// An entry so far has put the cell.
fn is_put(so_far: &[NewCell], slot: Slot) -> bool
    ensures { result ≡ is_put so_far.now slot }
{
    so_far.iter().any(|new| same_slot(new.slot, slot))
}

// What stands in a slot once some cells are put, one after the other.
fn cell_after(so_far: &[NewCell], slot: Slot, cell: Cell) -> Cell
    ensures { result ≡ cell_after so_far.now slot cell }
{
    let mut after = cell;
    for new in so_far {
        if same_slot(new.slot, slot) {
            after = new.cell;
        }
    }
    after
}

/// What stands in a slot with the entries so far.
pub(crate) fn cell_now(report: &Report<'_>, so_far: &[NewCell], slot: Slot) -> Cell
    requires { 0 < slot.round }
    ensures { result ≡ cell_now report.now so_far.now slot }
{
    cell_after(so_far, slot, report.cell(slot.player, slot.round))
}

fn same_colour(colour: Colour, other: Colour) -> bool
    ensures { result ≡ same_colour colour other }
{
    match (colour, other) {
        (Colour::White, Colour::White) | (Colour::Black, Colour::Black) => true,
        _ => false,
    }
}

fn same_colours(colour: Option<Colour>, other: Option<Colour>) -> bool
    ensures { result ≡ same_colours colour other }
{
    match (colour, other) {
        (None, None) => true,
        (Some(colour), Some(other)) => same_colour(colour, other),
        _ => false,
    }
}

fn same_bye(bye: Bye, other: Bye) -> bool
    ensures { result ≡ same_bye bye other }
{
    match (bye, other) {
        (Bye::Half, Bye::Half)
        | (Bye::Full, Bye::Full)
        | (Bye::Allocated, Bye::Allocated)
        | (Bye::Zero, Bye::Zero) => true,
        _ => false,
    }
}

fn same_outcome(got: GameOutcome, other: GameOutcome) -> bool
    ensures { result ≡ same_outcome got other }
{
    match (got, other) {
        (GameOutcome::Win, GameOutcome::Win)
        | (GameOutcome::Draw, GameOutcome::Draw)
        | (GameOutcome::Loss, GameOutcome::Loss) => true,
        _ => false,
    }
}

// Two cells say the same.
fn same_cell(cell: Cell, other: Cell) -> bool
    ensures { result ≡ same_cell cell other }
{
    match cell {
        Cell::Blank => matches!(other, Cell::Blank),
        Cell::Bye(bye) => match other {
            Cell::Bye(other_bye) => same_bye(bye, other_bye),
            _ => false,
        },
        Cell::Game {
            opponent,
            colour,
            rated,
            got,
        } => match other {
            Cell::Game {
                opponent: o,
                colour: c,
                rated: r,
                got: g,
            } => { opponent == o && same_colour(colour, c) && rated == r && same_outcome(got, g) }
            _ => false,
        },
        Cell::Forfeit {
            opponent,
            colour,
            won,
        } => match other {
            Cell::Forfeit {
                opponent: o,
                colour: c,
                won: w,
            } => { opponent == o && same_colours(colour, c) && won == w }
            _ => false,
        },
        Cell::Unfinished { opponent, colour } => match other {
            Cell::Unfinished {
                opponent: o,
                colour: c,
            } => opponent == o && same_colour(colour, c),
            _ => false,
        },
    }
}

// A cell that says nothing of the round, or a game without a result.
fn is_open(cell: &Cell) -> bool
    ensures { result ≡ (is_blank_cell cell.now || is_unfinished cell.now) }
{
    match cell {
        Cell::Blank | Cell::Unfinished { .. } => true,
        _ => false,
    }
}

/// Yes if a cell may take the place of the one that stands there with the entries so far.
pub(crate) fn may_be_put(
    correct: bool,
    report: &Report<'_>,
    so_far: &[NewCell],
    new: NewCell,
) -> bool
    requires { 0 < new.slot.round }
    ensures { result ≡ may_be_put correct report.now so_far.now new }
{
    let old = cell_now(report, so_far, new.slot);
    if correct || is_open(&old) {
        return true;
    }
    same_cell(old, new.cell) || is_put(so_far, new.slot)
}
