// The line of what is chosen in a bracket.
ghost use Rattle.std.specs.Prelude.{◌≡◌, ◌++◌, OnOk, codes};
ghost use Rattle.std.specs.List.{flat_map};
ghost use Rattle.dutch_rounds.specs.Prelude.{IsStage};
ghost use Rattle.stage_lines.specs.ExplainTexts.{all_pairs_words, candidate_line, candidate_words, choice_of_text};
ghost use Rattle.stage_lines.specs.ExplainTexts.{down_words, pair_words};

use common_texts::Page;
use dutch_bracket::seated::{Pair, Seated, by_seats};
use dutch_rounds::Stage;
use requests::Wording;
use round_lines::listing::{Bracket, put_line};
use round_lines::pieces::Piece::{Seat, Seats, Text};
use round_lines::pieces::put;
use round_lines::telling::Telling;
use std::alloc::AllocError;

/// Puts what is chosen in a bracket: its pairs, and those who go down.
#[tactic(auto, using(dutch_rounds::proofs::WalkEnds::candidate_is))]
pub fn put_choice(text: &mut Page, telling: &Telling<'_>, stage: &Stage) -> Result<(), AllocError>
    requires { IsStage telling.now.facts stage.now }
    ensures { OnOk result (text.new ≡ text.old ++ choice_of_text telling.now stage.now) }
{
    match telling.wording {
        Wording::Plain => put_choice_line(text, telling, stage),
        Wording::Words => {
            let seats = stage.reached().seats();
            let seated = by_seats(telling.field, seats, stage.candidate());
            put_choice_words(text, telling, &seated)
        }
    }
}

// Puts what is chosen in a bracket as a plain line.
fn put_choice_line(text: &mut Page, telling: &Telling<'_>, stage: &Stage) -> Result<(), AllocError>
    ensures { OnOk result (text.new ≡ text.old ++ candidate_line telling.now stage.now) }
{
    let bracket = Bracket {
        field: telling.field,
        reached: stage.reached(),
    };
    text.push_str("chosen ")?;
    put_line(text, &bracket, stage.candidate())
}

// Puts what is chosen in a bracket as sentences.
#[tactic(auto, unfolding(crate::specs::ExplainTexts::candidate_words))]
fn put_choice_words(
    text: &mut Page,
    telling: &Telling<'_>,
    seated: &Seated,
) -> Result<(), AllocError>
    ensures { OnOk result (text.new ≡ text.old ++ candidate_words telling.now seated.now) }
{
    text.push_str("Pairs: ")?;
    put_all_pairs(text, telling, &seated.pairs)?;
    text.push_str(".")?;
    put_down(text, telling, &seated.down)?;
    text.push_str("\n")
}

// Puts pairs, with a semicolon between two of them, or that there are none.
fn put_all_pairs(text: &mut Page, telling: &Telling<'_>, pairs: &[Pair]) -> Result<(), AllocError>
    ensures { OnOk result (text.new ≡ text.old ++ all_pairs_words telling.now pairs.now) }
{
    let [first, others @ ..] = pairs else {
        return text.push_str("none");
    };
    put(text, telling, &[Seat(first.0), Text(" - "), Seat(first.1)])?;
    put_other_pairs(text, telling, others)
}

// Puts pairs behind another one.
fn put_other_pairs(text: &mut Page, telling: &Telling<'_>, pairs: &[Pair]) -> Result<(), AllocError>
    ensures { OnOk result (text.new
        ≡ text.old ++ flat_map (λ pair. codes "; " ++ pair_words telling.now pair) pairs.now) }
{
    for pair in pairs {
        let (one, other) = (Seat(pair.0), Seat(pair.1));
        put(text, telling, &[Text("; "), one, Text(" - "), other])?;
    }
    Ok(())
}

// Puts those who go down, if there are some.
fn put_down(text: &mut Page, telling: &Telling<'_>, seats: &[u16]) -> Result<(), AllocError>
    ensures { OnOk result (text.new ≡ text.old ++ down_words telling.now seats.now) }
{
    if seats.is_empty() {
        return Ok(());
    }
    put(text, telling, &[Text(" Down: "), Seats(seats), Text(".")])
}
