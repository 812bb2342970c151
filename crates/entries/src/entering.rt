// A report with what was entered by hand.
ghost use Rattle.std.specs.Prelude.{◌≡◌, ◌-◌, ◌<◌, ◌≤◌, IfOk, length, map, option_map, sum_by, take};
ghost use Rattle.std.specs.Map.{keys_of};
ghost use Rattle.entries.specs.Outcomes.{Gives};
ghost use Rattle.entries.specs.Entered.{cells_with_new, entered, player_resummed, player_with_new};
ghost use Rattle.entries.specs.Entered.{report_if_cells_fit, report_resummed, with_new};
ghost use Rattle.entries.specs.Steps.{AreWithin, IsWithin, player_changed};
ghost use Rattle.trf16_report.specs.Prelude.{entry_of, half_points, rounds_played, with_cell};
ghost use Rattle.trf16_report.specs.declared.limits.TheConstants.{MOST_ROUNDS};

use crate::all_entries::cells_of_all;
use crate::entry::{EntryOptions, HandEntry, NewCell};
use crate::fault::EntryFault;
use indexmap::IndexMap;
use std::alloc::{AllocError, Global};
use trf16_reader::all_cells_fit;
use trf16_report::{Cell, Fault, Player, Report, front, said_len};

// Sets the cell of a round, which counts from 1; the rounds between are blank.
fn set_cell(cells: &mut Vec<Cell>, round: u8, cell: Cell) -> Result<(), AllocError>
    requires few { length cells.old.items ≤ MOST_ROUNDS }
    requires from_one { 0 < round }
    requires within { round ≤ MOST_ROUNDS }
    ensures set { IfOk result (λ _. cells.new.items ≡ with_cell (round - 1) cell cells.old.items) }
    ensures few { IfOk result (λ _. length cells.new.items ≤ MOST_ROUNDS) }
{
    let place = usize::from(round) - 1;
    while cells.len() <= place {
        cells.push(Cell::Blank)?;
    }
    cells[place] = cell;
    Ok(())
}

// Sets the cells of a player that are among some new ones.
fn set_cells(cells: &mut Vec<Cell>, all: &[NewCell], player: u16) -> Result<(), AllocError>
    requires few { length cells.old.items ≤ MOST_ROUNDS }
    requires within { AreWithin all.now }
    ensures set { IfOk result (λ _. cells.new.items ≡ cells_with_new all.now player cells.old.items) }
    ensures few { IfOk result (λ _. length cells.new.items ≤ MOST_ROUNDS) }
{
    for new in all {
        if new.slot.player == player {
            set_cell(cells, new.slot.round, new.cell)?;
        }
    }
    Ok(())
}

// A player with some new cells.
fn player_with_new<'a>(
    alloc: Global,
    all: &[NewCell],
    player: &Player<'a>,
) -> Result<Player<'a>, AllocError>
    requires { AreWithin all.now }
    ensures { IfOk result (λ made. entry_of made ≡ player_with_new all.now (entry_of player.now)) }
{
    let mut cells = Vec::from_slice(alloc, &player.cells)?;
    set_cells(&mut cells, all, player.start)?;
    let len = said_len(&cells);
    cells.truncate(len);
    Ok(Player {
        start: player.start,
        line: player.line,
        points: player.points,
        left: player.left,
        right: player.right,
        cells,
    })
}

// A points field that is not blank becomes the sum of the first rounds.
fn points_of(report: &Report<'_>, player: &Player<'_>) -> Option<u16>
    ensures { result ≡ option_map (λ _. sum_by (half_points report.now.bye) (take (rounds_played report.now) player.now.cells.items))
        player.now.points }
{
    match player.points {
        Some(_) => Some(report.points_over(front(&player.cells, report.rounds_played()))),
        None => None,
    }
}

// A player whose points are summed, unless they are blank.
fn player_resummed<'a>(
    alloc: Global,
    report: &Report<'a>,
    player: &Player<'a>,
) -> Result<Player<'a>, AllocError>
    ensures { IfOk result (λ made. entry_of made
        ≡ player_resummed report.now.bye (rounds_played report.now) (entry_of player.now)) }
{
    Ok(Player {
        start: player.start,
        line: player.line,
        points: points_of(report, player),
        left: player.left,
        right: player.right,
        cells: Vec::from_slice(alloc, &player.cells)?,
    })
}

/// What becomes of each player of a report.
#[derive(Clone, Copy, Drop)]
pub(crate) enum Change<'b> {
    /// They get some new cells.
    Cells(&'b [NewCell]),
    /// Their points are summed, unless they are blank.
    Points,
}

// A player, changed so.
fn player_changed<'a>(
    alloc: Global,
    report: &Report<'a>,
    change: Change<'_>,
    player: &Player<'a>,
) -> Result<Player<'a>, AllocError>
    requires { IsWithin change }
    ensures { IfOk result (λ made. entry_of made
        ≡ player_changed change.entry report.now.bye (rounds_played report.now) (entry_of player.now)) }
{
    match change {
        Change::Cells(all) => player_with_new(alloc, all, player),
        Change::Points => player_resummed(alloc, report, player),
    }
}

// All players, each changed so.
fn players_changed<'a>(
    alloc: Global,
    report: &Report<'a>,
    change: Change<'_>,
) -> Result<IndexMap<u16, Player<'a>>, AllocError>
    requires { IsWithin change }
    ensures changed { IfOk result (λ players. map (λ e. entry_of e.1) players.entries
        ≡ map (player_changed change.entry report.now.bye (rounds_played report.now)) report.now.players) }
    ensures keyed { IfOk result (λ players. keys_of players.entries ≡ map (λ e. e.1.start) players.entries) }
{
    let mut players = IndexMap::with_capacity(alloc, report.count())?;
    for player in report.players() {
        let made = player_changed(alloc, report, change, player)?;
        players.insert(player.start, made)?;
    }
    Ok(players)
}

// The report with each of its players changed so.
fn report_with<'a>(
    alloc: Global,
    report: &Report<'a>,
    change: Change<'_>,
) -> Result<Report<'a>, AllocError>
    requires { IsWithin change }
    ensures { IfOk result (λ found. found ≡ record report.now {
      players = map (player_changed change.entry report.now.bye (rounds_played report.now)) report.now.players;
    }) }
{
    let players = players_changed(alloc, report, change)?;
    report.with_players(alloc, players)
}

// A report whose points fields are summed, unless they are blank, or games have other points.
fn report_resummed<'a>(alloc: Global, report: Report<'a>) -> Result<Report<'a>, AllocError>
    ensures { IfOk result (λ found. found ≡ report_resummed report.entry) }
{
    if report.has_other_points() {
        return Ok(report);
    }
    report_with(alloc, &report, Change::Points)
}

// A report, unless a rule on two players is broken in it.
fn report_if_cells_fit<'a>(report: Report<'a>) -> Result<Report<'a>, EntryFault>
    ensures { Gives (λ found. found) result (report_if_cells_fit report.entry) }
{
    match all_cells_fit(&report) {
        Ok(()) => Ok(report),
        Err(Fault::OutOfMemory) => Err(EntryFault::OutOfMemory),
        Err(fault) => Err(EntryFault::Refused(fault)),
    }
}

/// The report that comes of some entries, which are put one after the other. A result is one of the game that the
/// player has; the opponent gets the other side of it, unless an entry in front names them. Each points field that is
/// not blank becomes the sum over the rounds that were paired, unless a line `XXS` says that games have other points.
/// Nothing else is changed.
///
/// # Errors
/// The first entry that is refused is told, for the first of these reasons: its round is not reached; whoever it names
/// is not known, or is named twice in the round; they have a game where a bye is asked for, or none where a result is
/// entered, or no colour; a cell of theirs, or of the opponent, says something else and was not put by an entry in
/// front, and nothing is to be corrected. Then the report that comes of all entries may be refused by the rules on two
/// players. Want of memory may come at any growth.
#[tactic(auto, unfolding(crate::specs::Entered::entered))]
pub fn entered<'a>(
    alloc: Global,
    options: EntryOptions,
    entries: &[HandEntry],
    report: &Report<'a>,
) -> Result<Report<'a>, EntryFault>
    ensures { Gives (λ found. found) result (entered options entries.now report.now) }
{
    let all = cells_of_all(alloc, options, report, entries)?;
    let with_new = report_with(alloc, report, Change::Cells(&all))?;
    report_if_cells_fit(report_resummed(alloc, with_new)?)
}
