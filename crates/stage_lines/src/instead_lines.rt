// The line that tells why a player does not meet another one in the next round, or does not have the bye, piece by
// piece.
ghost use Rattle.std.specs.Prelude.{◌≡◌, ◌++◌, OnOk};
ghost use Rattle.dutch_bracket.specs.Prelude.{quality_in};
ghost use Rattle.stage_lines.specs.InsteadTexts as texts;
ghost use Rattle.round_lines.specs.ValueTexts.{candidate_text};

use common_texts::Page;
use dutch_arrangements::Candidate;
use dutch_bracket::quality::Quality;
use dutch_rounds::{Instead, Stage, Wish};
use requests::Wording;
use round_lines::Asked;
use round_lines::pieces::Piece::{Number, Player, Seat, Text};
use round_lines::pieces::say;
use round_lines::telling::{Telling, in_wording};
use round_lines::value_texts::put_candidate;
use std::alloc::AllocError;

/// Puts that the player meets whom they ask for, or has the bye.
pub fn put_granted(text: &mut Page, telling: &Telling<'_>, asked: Asked) -> Result<(), AllocError>
    ensures { OnOk result (text.new ≡ text.old ++ texts.granted_text telling.now asked.player asked.number) }
{
    let (player, number) = (Player(asked.player), Number(asked.number));
    let (front, chosen) = (Text("instead "), Text(" chosen\n"));
    if asked.number == 0 {
        let words = [player, Text(" has the bye.\n")];
        return say(text, telling, &[front, number, chosen], &words);
    }
    let other = Player(asked.number);
    let words = [player, Text(" meets "), other, Text(".\n")];
    say(text, telling, &[front, number, chosen], &words)
}

/// Puts that the player does not meet whom they ask for, or does not get the bye, in front of why.
pub fn put_front(text: &mut Page, telling: &Telling<'_>, asked: Asked) -> Result<(), AllocError>
    ensures { OnOk result (text.new ≡ text.old ++ texts.front_text telling.now asked.player asked.number) }
{
    let (player, number) = (Player(asked.player), Number(asked.number));
    let (front, behind) = (Text("instead "), Text(" "));
    if asked.number == 0 {
        let words = [player, Text(" does not get the bye. ")];
        return say(text, telling, &[front, number, behind], &words);
    }
    let other = Player(asked.number);
    let words = [player, Text(" does not meet "), other, Text(". ")];
    say(text, telling, &[front, number, behind], &words)
}

/// What a search in a bracket found for a wish.
#[derive(Clone, Copy)]
pub struct Searched<'a> {
    pub stage: &'a Stage,
    pub wish: Wish,
    pub found: &'a Instead,
}

/// Puts a bracket, and what a search in it found.
pub fn put_found(
    text: &mut Page,
    telling: &Telling<'_>,
    searched: Searched<'_>,
) -> Result<(), AllocError>
    ensures { OnOk result (text.new
        ≡ text.old ++ (texts.bracket_front telling.now searched.entry.stage.now searched.entry.wish
        ++ texts.found_text telling.now.wording searched.entry.stage.now searched.entry.found.now)) }
{
    let down = would_go_down(searched.stage, searched.wish);
    put_bracket(text, telling, searched.stage.reached().number(), down)?;
    put_reason(text, telling, (searched.stage, searched.found))
}

// Who would have to go down in a bracket, by seat.
fn would_go_down(stage: &Stage, wish: Wish) -> Option<u16>
    ensures { result ≡ texts.would_go_down stage.now wish }
{
    let reached = stage.reached();
    match wish {
        Wish::LeftOver(number) if !reached.kind().ends_round() => Some(reached.seat(number)),
        Wish::LeftOver(_) | Wish::Pair(_, _) => None,
    }
}

// Puts the number of a bracket in front of what is found in it, and in a sentence also who would have to go down in it.
fn put_bracket(
    text: &mut Page,
    telling: &Telling<'_>,
    number: u16,
    down: Option<u16>,
) -> Result<(), AllocError>
    ensures { OnOk result (text.new ≡ text.old ++ texts.bracket_text telling.now number down) }
{
    let number = Number(number);
    let line = [Text("bracket "), number, Text(" ")];
    match down {
        Some(seat) => {
            let (who, down) = (Seat(seat), Text(" would have to go down in bracket "));
            let words = [Text("For that, "), who, down, number, Text(": ")];
            say(text, telling, &line, &words)
        }
        None => {
            let words = [Text("In bracket "), number, Text(", ")];
            say(text, telling, &line, &words)
        }
    }
}

// None that can be chosen grants the wish.
fn none_c4(wording: Wording) -> &'static str
    ensures { result.now ≡ texts.none_c4_text wording }
{
    in_wording(
        wording,
        "none C.4",
        "candidates with as many pairs and no fewer moved-down players in them allow it, but those whom they leave over could not all be paired below (C.4).",
    )
}

// None with as many moved-down players in as many pairs does.
fn none_b1(wording: Wording) -> &'static str
    ensures { result.now ≡ texts.none_b1_text wording }
{
    in_wording(
        wording,
        "none B.1",
        "no candidate that allows it makes as many pairs with as many moved-down players in them (B.1).",
    )
}

// None with as many pairs does.
fn none_c5(wording: Wording) -> &'static str
    ensures { result.now ≡ texts.none_c5_text wording }
{
    in_wording(
        wording,
        "none C.5",
        "no candidate that makes as many pairs allows it (C.5).",
    )
}

// Puts what a search in a bracket found.
fn put_reason(
    text: &mut Page,
    telling: &Telling<'_>,
    searched: (&Stage, &Instead),
) -> Result<(), AllocError>
    ensures { OnOk result (text.new
        ≡ text.old ++ texts.found_text telling.now.wording searched.entry.0.now searched.entry.1.now) }
{
    let (stage, found) = searched;
    match found {
        Instead::Best { candidate, quality } => {
            put_best(text, telling, candidate, (quality, stage.quality()))
        }
        Instead::NoneEligible => text.push_str(none_c4(telling.wording)),
        Instead::FewerMovedDown => text.push_str(none_b1(telling.wording)),
        Instead::NoneLegal => text.push_str(none_c5(telling.wording)),
        Instead::Undecided { .. } => Ok(()),
    }
}

// Puts the best candidate beside the chosen one.
fn put_best(
    text: &mut Page,
    telling: &Telling<'_>,
    candidate: &Candidate,
    of: (&Quality, &Quality),
) -> Result<(), AllocError>
    ensures { OnOk result (text.new ≡ text.old ++ (texts.best_front telling.now.wording
        ++ candidate_text telling.now.wording
        candidate.now.lists (quality_in of.entry.0.now) (quality_in of.entry.1.now))) }
{
    let words = [Text("the best candidate that allows it ")];
    say(text, telling, &[Text("")], &words)?;
    put_candidate(text, telling, candidate, of)
}
