// What is answered where no round is paired: that there is no pairing, and why; or that the steps ended first.
ghost use Rattle.std.specs.Prelude.{◌≡◌, ◌++◌, IfOk, OnOk};
ghost use Rattle.dutch_player.specs.Prelude.{seat_with};
ghost use Rattle.stage_lines.specs.BarrierTexts.{reason_text};
ghost use Rattle.command_line.specs.ExplainAnswers.{TellsWhy, asked_text, line_text, no_pairing_text, no_pairing_with};
ghost use Rattle.command_line.specs.InsteadAnswers.{undecided_in};
ghost use Rattle.replies.specs.Prelude.{answer_of};

use common_texts::{Page, put_undecided, put_undecided_words};
use dutch_rounds::{Barrier, barrier_of};
use player_lines::{put_absent, put_player};
use replies::refusal::NO_PAIRING;
use replies::{Reply, Status};
use requests::{Question, Wording};
use round_lines::telling::{Telling, in_wording};
use stage_lines::barrier_lines::put_barrier;
use std::alloc::{AllocError, Global};

/// No pairing meets the absolute criteria; behind that why, where a search of so many steps finds it, and what the
/// player who is asked about would bring to the round.
pub fn no_pairing_because(
    alloc: Global,
    telling: &Telling<'_>,
    question: Option<Question>,
    steps: u64,
) -> Result<Reply, AllocError>
    ensures { IfOk result (λ reply. TellsWhy telling.now question (answer_of reply)) }
{
    let found = barrier_of(alloc, telling.field, steps)?;
    tell_no_pairing(alloc, telling, question, &found)
}

// No pairing, and why: by the barrier that was found, if one was.
fn tell_no_pairing(
    alloc: Global,
    telling: &Telling<'_>,
    question: Option<Question>,
    found: &Option<Barrier>,
) -> Result<Reply, AllocError>
    ensures { IfOk result (λ reply. answer_of reply
        ≡ no_pairing_with telling.now question (reason_text telling.now found.now)) }
{
    let mut text = Page::new(alloc);
    put_no_pairing(&mut text, telling, question, found)?;
    Ok(Reply::of_page(Status::NoPairing, text))
}

// Puts that there is no pairing, why, and what the player who is asked about would bring to the round.
fn put_no_pairing(
    text: &mut Page,
    telling: &Telling<'_>,
    question: Option<Question>,
    found: &Option<Barrier>,
) -> Result<(), AllocError>
    ensures { OnOk result (text.new ≡ text.old ++ (no_pairing_text telling.now.wording
        ++ (reason_text telling.now found.now ++ asked_text telling.now question))) }
{
    text.push_str(in_wording(
        telling.wording,
        NO_PAIRING,
        "There is no pairing of the present players.\n",
    ))?;
    put_reason(text, telling, found)?;
    put_asked(text, telling, question)
}

// Puts why, where a barrier was found.
fn put_reason(
    text: &mut Page,
    telling: &Telling<'_>,
    found: &Option<Barrier>,
) -> Result<(), AllocError>
    ensures { OnOk result (text.new ≡ text.old ++ reason_text telling.now found.now) }
{
    match found {
        Some(barrier) => put_barrier(text, telling, barrier),
        None => Ok(()),
    }
}

// Puts what the player who is asked about would bring to the round, if one is asked about.
fn put_asked(
    text: &mut Page,
    telling: &Telling<'_>,
    question: Option<Question>,
) -> Result<(), AllocError>
    ensures { OnOk result (text.new ≡ text.old ++ asked_text telling.now question) }
{
    match question {
        Some(question) => put_line(text, telling, question.player),
        None => Ok(()),
    }
}

// Puts the line of a player.
fn put_line(text: &mut Page, telling: &Telling<'_>, player: u16) -> Result<(), AllocError>
    ensures { OnOk result (text.new
        ≡ text.old ++ line_text telling.now player (seat_with telling.now.facts player)) }
{
    match telling.field.seat_with(player) {
        Some(seat) => put_player(text, telling, seat),
        None => put_absent(text, telling, player),
    }
}

/// The steps of a bracket reached the limit before it was decided.
pub fn tell_undecided(
    alloc: Global,
    wording: Wording,
    number: u16,
    used: u64,
) -> Result<Reply, AllocError>
    ensures { IfOk result (λ reply. answer_of reply ≡ undecided_in wording number used) }
{
    let mut text = Page::new(alloc);
    match wording {
        Wording::Plain => put_undecided(&mut text, number, used)?,
        Wording::Words => put_undecided_words(&mut text, number, used)?,
    }
    Ok(Reply::of_page(Status::Undecided, text))
}
