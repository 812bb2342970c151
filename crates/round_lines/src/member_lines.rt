// The line of the players of a bracket, with their scores.
ghost use Rattle.std.specs.Prelude.{◌≡◌, ◌++◌, OnOk, codes};
ghost use Rattle.dutch_bracket.specs.Prelude.{IsOf};
ghost use Rattle.round_lines.specs.RoundTexts.{all_scored_words, bar_text, members_text, members_words, moved_words};

use crate::pieces::Piece::{Scored, ScoredSeats, Text};
use crate::pieces::put;
use crate::telling::Telling;
use common_texts::Page;
use dutch_bracket::Reached;
use requests::Wording;
use std::alloc::AllocError;

/// Puts the players of a bracket: those who were moved down, then the residents.
///
/// # Errors
/// Memory was refused.
#[tactic(auto, unfolding(crate::specs::RoundTexts::members_line))]
pub fn put_members(
    text: &mut Page,
    telling: &Telling<'_>,
    reached: &Reached,
) -> Result<(), AllocError>
    requires { IsOf telling.now.facts reached.now }
    ensures { OnOk result (text.new ≡ text.old ++ members_text telling.now reached.now) }
{
    let (moved_down, residents) = reached.seats().split_at(reached.mdps());
    match telling.wording {
        Wording::Plain => {
            let bar = Text(bar(reached.mdps()));
            let (moved_down, residents) = (Scored(moved_down), Scored(residents));
            put(
                text,
                telling,
                &[Text("players"), moved_down, bar, residents, Text("\n")],
            )
        }
        Wording::Words => put_members_words(text, telling, reached),
    }
}

// Puts the players of a bracket as sentences.
#[tactic(auto, unfolding(crate::specs::RoundTexts::members_words))]
fn put_members_words(
    text: &mut Page,
    telling: &Telling<'_>,
    reached: &Reached,
) -> Result<(), AllocError>
    requires { IsOf telling.now.facts reached.now }
    ensures { OnOk result (text.new ≡ text.old ++ members_words telling.now reached.now) }
{
    let (moved_down, residents) = reached.seats().split_at(reached.mdps());
    put_moved_down(text, telling, moved_down)?;
    put_residents(text, telling, residents)
}

// Puts the residents.
fn put_residents(text: &mut Page, telling: &Telling<'_>, seats: &[u16]) -> Result<(), AllocError>
    ensures { OnOk result (text.new
        ≡ text.old ++ (codes "Residents: " ++ (all_scored_words telling.now seats.now ++ codes ".\n"))) }
{
    put(
        text,
        telling,
        &[Text("Residents: "), ScoredSeats(seats), Text(".\n")],
    )
}

// What parts those who were moved down from the residents.
fn bar(mdps: usize) -> &'static str
    ensures { result.now ≡ bar_text mdps }
{
    if mdps == 0 { "" } else { " |" }
}

// Puts those who were moved down, if there are some.
fn put_moved_down(text: &mut Page, telling: &Telling<'_>, seats: &[u16]) -> Result<(), AllocError>
    ensures { OnOk result (text.new ≡ text.old ++ moved_words telling.now seats.now) }
{
    if seats.is_empty() {
        return Ok(());
    }
    put_some_moved(text, telling, seats)
}

// Puts the same of some.
fn put_some_moved(text: &mut Page, telling: &Telling<'_>, seats: &[u16]) -> Result<(), AllocError>
    ensures { OnOk result (text.new
        ≡ text.old ++ (codes "Moved down: " ++ (all_scored_words telling.now seats.now ++ codes ". "))) }
{
    put(
        text,
        telling,
        &[Text("Moved down: "), ScoredSeats(seats), Text(". ")],
    )
}
