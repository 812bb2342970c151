// The start ranks that a line `XXZ` or `XXP` names.
ghost use Rattle.std.specs.Prelude.{◌≡◌, ◌∷◌, ◌<◌, [], MatchOption};
ghost use Rattle.trf16_report.specs.Prelude.{words};
ghost use Rattle.report_notes.specs.Notes.{absent_notes, are_all, names_one, strangers};
ghost use Rattle.report_notes.specs.NoteOf.{noted};

use crate::games::played_last;
use crate::note::Note;
use trf16_report::{Report, next_word, number_of};

/// The first number among some words that no player has, and the words behind it.
pub(crate) fn next_stranger<'a>(report: &Report<'_>, bytes: &'a [u8]) -> Option<(u16, &'a [u8])>
    ensures first { MatchOption result (strangers report.now (words bytes.now) ≡ [])
        (λ x. strangers report.now (words bytes.now) ≡ x.0 ∷ strangers report.now (words x.1.now)) }
{
    let mut rest = bytes;
    while let Some((word, after)) = next_word(rest) {
        if let Some(number) = stranger(report, word) {
            return Some((number, after));
        }
        rest = after;
    }
    None
}

// The number that a word spells, if no player has it.
fn stranger(report: &Report<'_>, word: &[u8]) -> Option<u16>
    ensures { MatchOption result (strangers report.now (word.now ∷ []) ≡ [])
        (λ number. strangers report.now (word.now ∷ []) ≡ number ∷ []) }
{
    match number_of(word) {
        Some(number) if !report.knows(number) => Some(number),
        _ => None,
    }
}

/// The first note on the words of a line `XXZ`, line n, and the words behind the one that it is on.
pub(crate) fn next_absent<'a>(
    report: &Report<'_>,
    n: usize,
    bytes: &'a [u8],
) -> Option<(Note<'a>, &'a [u8])>
    ensures first { MatchOption result (absent_notes report.now n (words bytes.now) ≡ [])
        (λ x. absent_notes report.now n (words bytes.now) ≡ noted x.0 ∷ absent_notes report.now n (words x.1.now)) }
{
    let mut rest = bytes;
    while let Some((word, after)) = next_word(rest) {
        if let Some(note) = absent_note(report, n, word) {
            return Some((note, after));
        }
        rest = after;
    }
    None
}

// What is noted of a word of such a line.
fn absent_note<'a>(report: &Report<'_>, n: usize, word: &[u8]) -> Option<Note<'a>>
    ensures { MatchOption result (absent_notes report.now n (word.now ∷ []) ≡ [])
        (λ note. absent_notes report.now n (word.now ∷ []) ≡ noted note ∷ []) }
{
    let number = number_of(word)?;
    if !report.knows(number) {
        Some(Note::NoPlayer { line: n, number })
    } else if played_last(report, number) {
        Some(Note::PlayedLast { line: n, number })
    } else {
        None
    }
}

fn are_all(bytes: &[u8], number: u16) -> bool
    ensures { result ≡ are_all number (words bytes.now) }
{
    let mut rest = bytes;
    while let Some((word, after)) = next_word(rest) {
        if number_of(word) != Some(number) {
            return false;
        }
        rest = after;
    }
    true
}

/// A line `XXP` that names one number alone keeps nobody apart. Without words the answer is no.
pub(crate) fn names_one(bytes: &[u8]) -> bool
    ensures { result ≡ names_one (words bytes.now) }
{
    let Some((word, rest)) = next_word(bytes) else {
        return false;
    };
    match number_of(word) {
        Some(number) => are_all(rest, number),
        None => false,
    }
}
