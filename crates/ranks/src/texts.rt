// A report with other texts in the columns 85 to 89 of its players.
ghost use Rattle.std.specs.Prelude.{◌≡◌, IfOk, length, map};
ghost use Rattle.std.specs.Map.{keys_of};
ghost use Rattle.trf16_report.specs.Prelude.{entry_of};
ghost use Rattle.ranks.specs.Texts.{entries_with, with_texts};

use indexmap::IndexMap;
use std::alloc::{AllocError, Global};
use trf16_report::{Player, Report};

// A player with another text in these columns.
fn player_with_text<'a>(
    alloc: Global,
    player: &Player<'a>,
    text: &'a [u8],
) -> Result<Player<'a>, AllocError>
    ensures { IfOk result (λ made. entry_of made ≡ record (entry_of player.now) { right = text.now }) }
{
    Ok(Player {
        start: player.start,
        line: player.line,
        points: player.points,
        left: player.left,
        right: text,
        cells: Vec::from_slice(alloc, &player.cells)?,
    })
}

// All players so, each with a text.
fn players_with_texts<'a>(
    alloc: Global,
    report: &Report<'a>,
    texts: &'a [Vec<u8>],
) -> Result<IndexMap<u16, Player<'a>>, AllocError>
    requires { length texts.now ≡ length report.now.players }
    ensures texts { IfOk result (λ players. map (λ e. entry_of e.1) players.entries
        ≡ entries_with report.now.players (map (λ text. text.items) texts.now)) }
    ensures keyed { IfOk result (λ players. keys_of players.entries ≡ map (λ e. e.1.start) players.entries) }
{
    let mut players = IndexMap::with_capacity(alloc, report.count())?;
    let mut rest = texts;
    for player in report.players() {
        let Some((text, others)) = rest.split_first() else {
            unreachable!();
        };
        players.insert(
            player.start,
            player_with_text(alloc, player, text.as_slice())?,
        )?;
        rest = others;
    }
    Ok(players)
}

/// The report in which the columns 85 to 89 of its players have these texts, in the order of their lines.
///
/// # Errors
/// Memory was refused.
pub(crate) fn with_texts<'a>(
    alloc: Global,
    report: &Report<'a>,
    texts: &'a [Vec<u8>],
) -> Result<Report<'a>, AllocError>
    requires { length texts.now ≡ length report.now.players }
    ensures { IfOk result (λ made. made ≡ with_texts report.now (map (λ text. text.items) texts.now)) }
{
    let players = players_with_texts(alloc, report, texts)?;
    report.with_players(alloc, players)
}
