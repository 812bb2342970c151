// The cells of two players in a round, as a refused text holds them.
ghost use Rattle.std.specs.Prelude.{◌≡◌, ◌≤◌, ◌&&◌, ◌==◌};
ghost use Rattle.trf16_report.specs.Prelude.{columns, is_player, lines};
ghost use Rattle.trf16_report.specs.declared.limits.TheConstants.{MOST_ROUNDS};
ghost use Rattle.report_notes.specs.Games.{start_in};
ghost use Rattle.report_notes.specs.RefusalNotes.{cell_held, line_with, opponent_held, player_columns};

use crate::fields::{number_in, start_in};
use crate::refusal::{columns_in, has_characters};
use trf16_report::{next_line, skip_marks, split_kind};

/// Yes for the line of a player with a start rank.
pub(crate) fn is_line_of(line: &[u8], utf8: bool, start: u16) -> bool
    ensures { result ≡ (is_player (columns utf8 line.now) && (start_in (columns utf8 line.now) == start)) }
{
    let (kind, _) = split_kind(line, utf8);
    kind == b"001".as_slice() && start_in(line, utf8) == start
}

// The first line that is that of the player with a start rank, of a text without marks; empty if there is none.
fn line_with(text: &[u8], utf8: bool, start: u16) -> &[u8]
    ensures { result.now ≡ line_with utf8 start (lines text.now) }
{
    let mut rest = text;
    while !rest.is_empty() {
        let (line, after) = next_line(rest);
        if is_line_of(line, utf8, start) {
            return line;
        }
        rest = after;
    }
    &[]
}

// Some columns of a player's line.
fn player_columns(bytes: &[u8], start: u16, first: usize, last: usize) -> &[u8]
    ensures { result.now ≡ player_columns bytes.now start first last }
{
    let utf8 = has_characters(bytes);
    columns_in(line_with(skip_marks(bytes), utf8, start), utf8, first, last)
}

/// What a player's line holds of a round: opponent, colour and result. The time grows with the text.
pub fn cell_held(bytes: &[u8], start: u16, round: usize) -> &[u8]
    requires { round ≤ MOST_ROUNDS }
    ensures { result.now ≡ cell_held bytes.now start round }
{
    player_columns(bytes, start, 82 + 10 * round, 89 + 10 * round)
}

/// The opponent whom a player's line names in a round; 0 if it names none. The time grows with the text.
pub fn opponent_held(bytes: &[u8], start: u16, round: usize) -> u16
    requires { round ≤ MOST_ROUNDS }
    ensures { result ≡ opponent_held bytes.now start round }
{
    number_in(player_columns(bytes, start, 82 + 10 * round, 85 + 10 * round)).unwrap_or(0)
}
