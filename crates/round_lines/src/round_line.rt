// The line of a round.
ghost use Rattle.std.specs.Prelude.{◌≡◌, ◌++◌, OnOk};
ghost use Rattle.std.specs.List.{flat_map};
ghost use Rattle.round_lines.specs.RoundTexts.{bye_text, counts_line, counts_words, round_text};
ghost use Rattle.round_lines.specs.Tellings.{in_wording};

use crate::pieces::Piece::{Rank, Seat, Text};
use crate::pieces::say;
use crate::telling::Telling;
use common_texts::Page;
use requests::Wording;
use std::alloc::AllocError;

/// Puts the line of the round: its number, the total of rounds, who is there, how many boards, and who has the bye.
///
/// # Errors
/// Memory was refused.
#[tactic(auto, unfolding(crate::specs::RoundTexts::round_text))]
pub fn put_round(text: &mut Page, telling: &Telling<'_>, bye: &[u16]) -> Result<(), AllocError>
    ensures { OnOk result (text.new ≡ text.old ++ round_text telling.now bye.now) }
{
    put_counts(text, telling, bye)?;
    put_byes(text, telling, bye)?;
    text.push_str("\n")
}

// Puts the round and its counts.
#[tactic(auto, unfolding(crate::specs::RoundTexts::counts_line, crate::specs::RoundTexts::counts_words))]
fn put_counts(text: &mut Page, telling: &Telling<'_>, bye: &[u16]) -> Result<(), AllocError>
    ensures { OnOk result (text.new ≡ text.old
        ++ in_wording telling.now.wording (counts_line telling.now bye.now) (counts_words telling.now bye.now)) }
{
    let (round, total) = (telling.field.round(), telling.field.total());
    let present = telling.field.len();
    let absent = telling.report.players().len().saturating_sub(present);
    let boards = present.saturating_sub(bye.len()) / 2;
    match telling.wording {
        Wording::Plain => write!(
            text,
            "round {round} of {total} present {present} absent {absent} boards {boards}"
        ),
        Wording::Words => write!(
            text,
            "Round {round} of {total}. Present: {present}. Absent: {absent}. Boards: {boards}."
        ),
    }
}

// Puts who has the bye.
fn put_byes(text: &mut Page, telling: &Telling<'_>, bye: &[u16]) -> Result<(), AllocError>
    ensures { OnOk result (text.new ≡ text.old ++ flat_map (bye_text telling.now) bye.now) }
{
    for seat in bye {
        let (line, words) = (Rank(*seat), Seat(*seat));
        say(
            text,
            telling,
            &[Text(" bye "), line],
            &[Text(" Bye: "), words, Text(".")],
        )?;
    }
    Ok(())
}
