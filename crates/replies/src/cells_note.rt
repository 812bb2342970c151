// The cells of two players who do not fit together.
ghost use Rattle.std.specs.Prelude.{◌≡◌, ◌≤◌, ◌++◌, OnOk};
ghost use Rattle.trf16_report.specs.declared.limits.TheConstants.{MOST_ROUNDS};
ghost use Rattle.replies.specs.RefusalNoteTexts.{cell_shown, cells_note, cells_text, front_of_answer, front_of_cell};

use crate::table::put_blanks;
use common_texts::{Page, put_without_controls};
use report_notes::{cell_held, has_characters, opponent_held};
use std::alloc::AllocError;
use trf16_report::{MOST_ROUNDS, column_count};

/// Puts what a player's line holds of a round, and that of the opponent whom it names; nothing if there can be no such
/// round.
pub(crate) fn put_cells_note(
    text: &mut Page,
    bytes: &[u8],
    player: u16,
    round: usize,
) -> Result<(), AllocError>
    ensures { OnOk result (text.new ≡ text.old ++ cells_note bytes.now player round) }
{
    if MOST_ROUNDS < round {
        return Ok(());
    }
    put_cells(text, bytes, player, round)
}

// Puts what a player's line and that of the opponent hold of a round that there can be.
fn put_cells(text: &mut Page, bytes: &[u8], player: u16, round: usize) -> Result<(), AllocError>
    requires { round ≤ MOST_ROUNDS }
    ensures { OnOk result (text.new ≡ text.old ++ cells_text bytes.now player round) }
{
    let utf8 = has_characters(bytes);
    let opponent = opponent_held(bytes, player, round);
    put_front_of_cell(text, player, round)?;
    put_cell(text, cell_held(bytes, player, round), utf8)?;
    put_front_of_answer(text, opponent)?;
    put_cell(text, cell_held(bytes, opponent, round), utf8)?;
    text.push_str("\"\n")
}

// Puts a cell as a line holds it, with blanks where the line ends before the cell's eight columns.
fn put_cell(text: &mut Page, cell: &[u8], utf8: bool) -> Result<(), AllocError>
    ensures { OnOk result (text.new ≡ text.old ++ cell_shown utf8 cell.now) }
{
    put_without_controls(text, cell)?;
    put_blanks(text, 8_usize.saturating_sub(column_count(cell, utf8)))
}

#[tactic(auto, unfolding(crate::specs::RefusalNoteTexts::front_of_cell))]
fn put_front_of_cell(text: &mut Page, player: u16, round: usize) -> Result<(), AllocError>
    ensures { OnOk result (text.new ≡ text.old ++ front_of_cell player round) }
{
    write!(text, "note player {player} round {round}: \"")
}

#[tactic(auto, unfolding(crate::specs::RefusalNoteTexts::front_of_answer))]
fn put_front_of_answer(text: &mut Page, opponent: u16) -> Result<(), AllocError>
    ensures { OnOk result (text.new ≡ text.old ++ front_of_answer opponent) }
{
    write!(text, "\", player {opponent}: \"")
}
