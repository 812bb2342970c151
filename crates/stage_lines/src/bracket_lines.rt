// The lines of brackets: who is in each, what is chosen, what counts against that, and its boards.
ghost use Rattle.std.specs.Prelude.{◌≡◌, ◌++◌, OnOk};
ghost use Rattle.std.specs.List.{AllByRecursion};
ghost use Rattle.dutch_rounds.specs.Prelude.{IsStage};
ghost use Rattle.stage_lines.specs.ExplainTexts.{chosen_text, is_bracket_told, stage_text, stages_text};

use crate::board_lines::{put_byes, put_pairs};
use crate::choice_lines::put_choice;
use crate::item_lines::put_each_item;
use common_texts::Page;
use dutch_rounds::{ITEMS, Reached, Stage};
use round_lines::bracket_texts::put_bracket;
use round_lines::pieces::Piece::Text;
use round_lines::pieces::say;
use round_lines::put_members;
use round_lines::telling::Telling;
use std::alloc::AllocError;

/// Puts the brackets, in the order in which the round reaches them: all of them, or those of one seat and what in them
/// is that seat's own.
pub fn put_stages(
    text: &mut Page,
    telling: &Telling<'_>,
    stages: &[Stage],
    whose: Option<u16>,
) -> Result<(), AllocError>
    requires { AllByRecursion (IsStage telling.now.facts) stages.now }
    ensures { OnOk result (text.new ≡ text.old ++ stages_text telling.now whose stages.now) }
{
    for stage in stages {
        if is_bracket_told(stage.reached(), whose) {
            put_stage(text, telling, stage, whose)?;
        }
    }
    Ok(())
}

// Where a seat is asked about, only the brackets are told in which it stands; otherwise all are.
fn is_bracket_told(reached: &Reached, whose: Option<u16>) -> bool
    ensures { result ≡ is_bracket_told whose reached.now }
{
    match whose {
        Some(own) => reached.seats().contains(&own),
        None => true,
    }
}

// Puts a bracket.
#[tactic(auto, unfolding(crate::specs::ExplainTexts::stage_text))]
fn put_stage(
    text: &mut Page,
    telling: &Telling<'_>,
    stage: &Stage,
    whose: Option<u16>,
) -> Result<(), AllocError>
    requires { IsStage telling.now.facts stage.now }
    ensures { OnOk result (text.new ≡ text.old ++ stage_text telling.now whose stage.now) }
{
    put_bracket(text, telling, stage.reached(), stage.shape())?;
    put_members(text, telling, stage.reached())?;
    if stage.is_again() {
        let words =
            "Those it leaves over could not all be paired with the players below, so it is paired again as the next bracket (C.4).\n";
        return say(text, telling, &[Text("again C.4\n")], &[Text(words)]);
    }
    put_chosen(text, telling, stage, whose)
}

// Puts what is chosen in a bracket, what counts against it, its boards and who is left over.
#[tactic(auto, unfolding(crate::specs::ExplainTexts::chosen_text, crate::specs::StageItems::items_text))]
fn put_chosen(
    text: &mut Page,
    telling: &Telling<'_>,
    stage: &Stage,
    whose: Option<u16>,
) -> Result<(), AllocError>
    requires { IsStage telling.now.facts stage.now }
    ensures { OnOk result (text.new ≡ text.old ++ chosen_text telling.now whose stage.now) }
{
    put_choice(text, telling, stage)?;
    put_each_item(text, telling, stage, &ITEMS)?;
    put_pairs(text, telling, stage, whose)?;
    put_byes(text, telling, stage, whose)
}
