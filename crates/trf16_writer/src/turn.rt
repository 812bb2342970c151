// A report whose players are turned into others: paired, summed, or as they were before a round.
ghost use Rattle.std.specs.Prelude.{◌≡◌, IfOk, map};
ghost use Rattle.std.specs.Map.{keys_of};
ghost use Rattle.trf16_report.specs.Sheet.{entry_of, rounds_played};
ghost use Rattle.trf16_writer.specs.Steps.{IsWithin, entry_turned};

use crate::back::player_back;
use crate::round::player_with;
use crate::sums::player_summed;
use indexmap::IndexMap;
use std::alloc::{AllocError, Global};
use trf16_report::{Player, Report};

/// What becomes of each player of a report.
#[derive(Clone, Copy, Drop)]
pub(crate) enum Turn<'b> {
    /// They stay as they are.
    Kept,
    /// They have a cell of the next round, by its boards, and their points.
    Paired(&'b [(u16, u16)]),
    /// Their points are summed.
    Summed,
    /// Of their rounds the first so many stay, and the next is what it was before it was paired.
    TakenBack(u8),
}

// A player, turned so.
fn player_turned<'a>(
    alloc: Global,
    report: &Report<'a>,
    turn: Turn<'_>,
    player: &Player<'a>,
) -> Result<Player<'a>, AllocError>
    requires { IsWithin turn (rounds_played report.now) }
    ensures { IfOk result (λ turned. entry_of turned
        ≡ entry_turned turn.entry report.now.bye (rounds_played report.now) (entry_of player.now)) }
{
    match turn {
        Turn::Kept => player.copy(alloc),
        Turn::Paired(boards) => player_with(alloc, report, boards, player),
        Turn::Summed => player_summed(alloc, report, player),
        Turn::TakenBack(before) => player_back(alloc, report, before, player),
    }
}

// All players, each turned so.
fn players_turned<'a>(
    alloc: Global,
    report: &Report<'a>,
    turn: Turn<'_>,
) -> Result<IndexMap<u16, Player<'a>>, AllocError>
    requires { IsWithin turn (rounds_played report.now) }
    ensures turned { IfOk result (λ players. map (λ e. entry_of e.1) players.entries
        ≡ map (entry_turned turn.entry report.now.bye (rounds_played report.now)) report.now.players) }
    ensures keyed { IfOk result (λ players. keys_of players.entries ≡ map (λ e. e.1.start) players.entries) }
{
    let mut players = IndexMap::with_capacity(alloc, report.count())?;
    for player in report.players() {
        let turned = player_turned(alloc, report, turn, player)?;
        players.insert(player.start, turned)?;
    }
    Ok(players)
}

/// The report with each of its players turned so.
pub(crate) fn report_turned<'a>(
    alloc: Global,
    report: &Report<'a>,
    turn: Turn<'_>,
) -> Result<Report<'a>, AllocError>
    requires { IsWithin turn (rounds_played report.now) }
    ensures { IfOk result (λ found. found ≡ record report.now {
      players = map (entry_turned turn.entry report.now.bye (rounds_played report.now)) report.now.players;
    }) }
{
    let players = players_turned(alloc, report, turn)?;
    report.with_players(alloc, players)
}
