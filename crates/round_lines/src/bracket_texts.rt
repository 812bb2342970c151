// The first line of a bracket, as codes and as a sentence, and the last line of a listing of its candidates.
ghost use Rattle.std.specs.Prelude.{◌≡◌, ◌++◌, OnOk};
ghost use Rattle.round_lines.specs.Listings.{ending_text};
ghost use Rattle.round_lines.specs.CandidateTexts.{bracket_text, bracket_words, kind_text, kind_words};
ghost use Rattle.round_lines.specs.Tellings.{in_wording};

use crate::listing::Ending;
use crate::telling::Telling;
use common_texts::{Page, put_undecided};
use dutch_arrangements::Shape;
use dutch_bracket::{BracketKind, Reached};
use requests::Wording;
use std::alloc::AllocError;

// What a bracket is for the round, and the same in a sentence, behind the bracket's number.
fn kind(kind: BracketKind) -> (&'static str, &'static str)
    ensures line { result.0.now ≡ kind_text kind }
    ensures words { result.1.now ≡ kind_words kind }
{
    match kind {
        BracketKind::Ordinary => ("ordinary", "."),
        BracketKind::Last => ("last", ", the last one."),
        BracketKind::Penultimate => ("penultimate", ", the penultimate one."),
        BracketKind::Collapsed => ("collapsed", ", the collapsed one."),
    }
}

/// Puts the line of a bracket: its number, its kind, how many pairs it makes, and how many moved-down players are in
/// them.
///
/// # Errors
/// Memory was refused.
#[tactic(auto, unfolding(crate::specs::CandidateTexts::bracket_text))]
pub fn put_bracket_line(
    text: &mut Page,
    number: u16,
    of_kind: BracketKind,
    shape: Shape,
) -> Result<(), AllocError>
    ensures { OnOk result (text.new ≡ text.old ++ bracket_text number of_kind shape) }
{
    let (word, pairs, mdps) = (kind(of_kind).0, shape.pairs, shape.mdps);
    write!(text, "bracket {number} {word} pairs {pairs} mdps {mdps}\n")
}

// Puts the same as a sentence.
#[tactic(auto, unfolding(crate::specs::CandidateTexts::bracket_words))]
fn put_bracket_words(
    text: &mut Page,
    number: u16,
    of_kind: BracketKind,
    shape: Shape,
) -> Result<(), AllocError>
    ensures { OnOk result (text.new ≡ text.old ++ bracket_words number of_kind shape) }
{
    let (words, pairs, mdps) = (kind(of_kind).1, shape.pairs, shape.mdps);
    write!(
        text,
        "Bracket {number}{words} Pairs: {pairs}. Moved-down players in them: {mdps}.\n"
    )
}

/// Puts a bracket, as a line or as a sentence.
///
/// # Errors
/// Memory was refused.
pub fn put_bracket(
    text: &mut Page,
    telling: &Telling<'_>,
    reached: &Reached,
    shape: Shape,
) -> Result<(), AllocError>
    ensures { OnOk result (text.new ≡ text.old ++ in_wording telling.now.wording
        (bracket_text reached.now.number reached.now.kind shape)
        (bracket_words reached.now.number reached.now.kind shape)) }
{
    match telling.wording {
        Wording::Plain => put_bracket_line(text, reached.number(), reached.kind(), shape),
        Wording::Words => put_bracket_words(text, reached.number(), reached.kind(), shape),
    }
}

/// Puts the last line of a listing.
///
/// # Errors
/// Memory was refused.
pub fn put_ending(text: &mut Page, number: u16, ending: Ending) -> Result<(), AllocError>
    ensures { OnOk result (text.new ≡ text.old ++ ending_text number ending) }
{
    match ending {
        Ending::AtEnd => text.push_str("end\n"),
        Ending::AtCount => text.push_str("more\n"),
        Ending::Stopped { used } => put_undecided(text, number, used),
    }
}
