// The canonical text of a report with new start ranks.
ghost use Rattle.std.specs.Prelude.{◌≡◌, ◌++◌, ◌∷◌, [], map, option_map, option_copied, IfOk};
ghost use Rattle.trf16_report.specs.Prelude.{entry_of, lines_text, player_text, written, renumbered, renumbered_line};
ghost use Rattle.trf16_writer.specs.Steps.{next_text, players_behind};
ghost use Rattle.trf16_writer.specs.StartTable.{new_in};

use crate::new_starts::NewStarts;
use crate::renumbered_lines::renumbered_line;
use crate::renumbered_players::renumbered_players;
use crate::writing::put_player_line;
use std::alloc::{AllocError, Global};
use std::slice::Iter;
use trf16_report::{Counted, Failed, Player, Report};

// A text with the line of a player behind it.
fn with_player_line(text: Vec<u8>, utf8: bool, player: &Player<'_>) -> Result<Vec<u8>, AllocError>
    ensures { IfOk result (λ longer. longer.items
        ≡ text.items ++ (player_text utf8 (entry_of player.now) ++ (10 ∷ []))) }
{
    let mut longer = Counted::new(text);
    match put_player_line(&mut longer, utf8, player) {
        Ok(()) => Ok(longer.into_inner()),
        Err(Failed) => Err(AllocError),
    }
}

// A text with a line that is carried behind it.
fn with_line(text: Vec<u8>, line: &[u8]) -> Result<Vec<u8>, AllocError>
    ensures { IfOk result (λ longer. longer.items ≡ text.items ++ (line.now ++ (10 ∷ []))) }
{
    let mut longer = text;
    longer.extend_from_slice(line)?;
    longer.push(b'\n')?;
    Ok(longer)
}

// A text with the next line behind it: one that is carried, or that of the next player.
fn with_next(
    text: Vec<u8>,
    utf8: bool,
    carried: Option<&[u8]>,
    players: &mut Iter<'_, Player<'_>>,
) -> Result<Vec<u8>, AllocError>
    ensures text { IfOk result (λ longer. longer.items
        ≡ text.items ++ next_text utf8 (option_copied carried.entry) (map entry_of players.old.rest.now)) }
    ensures players { map entry_of players.new.rest.now
        ≡ players_behind (option_copied carried.entry) (map entry_of players.old.rest.now) }
{
    match carried {
        Some(line) => with_line(text, line),
        None => match players.next() {
            Some(player) => with_player_line(text, utf8, player),
            None => Ok(text),
        },
    }
}

// All lines of a report with new start ranks, whose players are given.
fn text_of(
    alloc: Global,
    report: &Report<'_>,
    new: &NewStarts,
    players: &[Player<'_>],
) -> Result<Vec<u8>, AllocError>
    ensures { IfOk result (λ text. text.items ≡ lines_text report.now.utf8
        (map (option_map (renumbered_line report.now.utf8 (new_in new.now))) report.now.carried)
        (map entry_of players.now)) }
{
    let mut text = Vec::new(alloc);
    let mut players = players.iter();
    let mut lines = report.carried_lines();
    while let Some(line) = lines.next() {
        let renumbered = renumbered_line(alloc, report.is_utf8(), new, line)?;
        text = with_next(text, report.is_utf8(), renumbered.as_deref(), &mut players)?;
    }
    Ok(text)
}

/// The canonical text of a report whose start ranks are 1, 2 and so on by rating, title and the start rank that a
/// player has: each number on a player's line, in a cell and on a line `XXZ` or `XXP` is the new one, a number there
/// that no player has is left out, and everything else stays.
///
/// # Errors
/// Memory was refused.
pub fn renumbered_text(alloc: Global, report: &Report<'_>) -> Result<Vec<u8>, AllocError>
    ensures { IfOk result (λ text. text.items ≡ written (renumbered report.now)) }
{
    let new = NewStarts::of(alloc, report)?;
    let players = renumbered_players(alloc, report, &new)?;
    text_of(alloc, report, &new, &players)
}
