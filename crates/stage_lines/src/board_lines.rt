// The lines of the boards of a bracket, and of who is left over where the round ends.
ghost use Rattle.std.specs.Prelude.{◌≡◌, ◌++◌, OnOk};
ghost use Rattle.dutch_rounds.specs.Prelude.{IsStage};
ghost use Rattle.stage_lines.specs.ExplainTexts.{boards_text, byes_text, is_told, over_text, pairs_text};

use common_texts::Page;
use dutch_rounds::Stage;
use dutch_rounds::boards::Board;
use round_lines::pieces::Piece::{Rank, Seat, Text};
use round_lines::pieces::say;
use round_lines::put_board;
use round_lines::telling::Telling;
use std::alloc::AllocError;

// Where no seat is asked about, all are told.
fn is_told(seat: u16, whose: Option<u16>) -> bool
    ensures { result ≡ is_told whose seat }
{
    match whose {
        Some(own) => own == seat,
        None => true,
    }
}

/// Puts the boards of a bracket, in the order of its candidate: all of them, or that of one seat.
pub fn put_pairs(
    text: &mut Page,
    telling: &Telling<'_>,
    stage: &Stage,
    whose: Option<u16>,
) -> Result<(), AllocError>
    requires { IsStage telling.now.facts stage.now }
    ensures { OnOk result (text.new ≡ text.old ++ pairs_text telling.now whose stage.now) }
{
    let mut pairs: Vec<Board> = Vec::new(text.allocator());
    stage.put_pairs(telling.field, &mut pairs)?;
    put_boards(text, telling, &pairs, whose)
}

// Puts the boards of pairs.
fn put_boards(
    text: &mut Page,
    telling: &Telling<'_>,
    pairs: &[Board],
    whose: Option<u16>,
) -> Result<(), AllocError>
    ensures { OnOk result (text.new ≡ text.old ++ boards_text telling.now whose pairs.now) }
{
    for pair in pairs {
        if is_told(pair.0, whose) || is_told(pair.1, whose) {
            put_board(text, telling, *pair)?;
        }
    }
    Ok(())
}

/// Puts who is left over in a bracket that ends the round: if it is told of them.
pub fn put_byes(
    text: &mut Page,
    telling: &Telling<'_>,
    stage: &Stage,
    whose: Option<u16>,
) -> Result<(), AllocError>
    ensures { OnOk result (text.new ≡ text.old ++ byes_text telling.now whose stage.now) }
{
    let reached = stage.reached();
    if !reached.kind().ends_round() {
        return Ok(());
    }
    for number in stage.candidate().down() {
        let seat = reached.seat(*number);
        if is_told(seat, whose) {
            put_over(text, telling, seat)?;
        }
    }
    Ok(())
}

// Puts one who is left over.
#[tactic(auto, unfolding(crate::specs::ExplainTexts::over_line, crate::specs::ExplainTexts::over_words))]
fn put_over(text: &mut Page, telling: &Telling<'_>, seat: u16) -> Result<(), AllocError>
    ensures { OnOk result (text.new ≡ text.old ++ over_text telling.now seat) }
{
    say(
        text,
        telling,
        &[Text("bye "), Rank(seat), Text("\n")],
        &[Text("Bye: "), Seat(seat), Text(".\n")],
    )
}
