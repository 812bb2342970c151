// The words of the extension lines XXR, XXC, XXZ and XXP.
ghost use Rattle.std.specs.Prelude.{◌≡◌, codes};
ghost use Rattle.std.specs.List.{list_any};
ghost use Rattle.trf16_report.specs.Lines.{columns};
ghost use Rattle.trf16_report.specs.Fields.{words};
ghost use Rattle.trf16_report.specs.Extensions as extensions;

use crate::cell::Colour;
use crate::columns::split_kind;
use crate::fields::{next_word, number_in, number_of};

/// Yes if two words are the same but for the case of their letters.
pub fn is_word(word: &[u8], capitals: &[u8]) -> bool
    ensures { result ≡ extensions.is_word word.now capitals.now }
{
    word.eq_ignore_ascii_case(capitals)
}

/// The number of rounds of a line `XXR`.
pub fn rounds_in(rest: &[u8]) -> Option<u16>
    ensures { result ≡ extensions.rounds_in (words rest.now) }
{
    match number_in(rest)? {
        0 => None,
        rounds => Some(rounds),
    }
}

// What a word of a line `XXC` names.
fn colour_named(word: &[u8]) -> Option<Option<Colour>>
    ensures { result ≡ extensions.colour_named word.now }
{
    if is_word(word, b"WHITE1") {
        return Some(Some(Colour::White));
    }
    if is_word(word, b"BLACK1") {
        return Some(Some(Colour::Black));
    }
    if is_word(word, b"RANK") {
        return Some(None);
    }
    None
}

// White and black together are no answer; `rank` beside a colour changes nothing.
fn named_together(front: Option<Colour>, named: Option<Colour>) -> Option<Option<Colour>>
    ensures { result ≡ extensions.named_together front named }
{
    match (front, named) {
        (Some(Colour::White), Some(Colour::Black)) => None,
        (Some(Colour::Black), Some(Colour::White)) => None,
        (None, _) => Some(named),
        (Some(_), _) => Some(front),
    }
}

// The initial colour behind one word of a line `XXC`.
fn colour_behind(initial: Option<Colour>, word: &[u8]) -> Option<Option<Colour>>
    ensures { result ≡ extensions.colour_behind initial word.now }
{
    named_together(initial, colour_named(word)?)
}

// The initial colour behind all words of a line `XXC`.
fn colour_behind_all(initial: Option<Colour>, bytes: &[u8]) -> Option<Option<Colour>>
    ensures { result ≡ extensions.colour_behind_all initial (words bytes.now) }
{
    let mut seen = initial;
    let mut rest = bytes;
    while let Some((word, after)) = next_word(rest) {
        seen = colour_behind(seen, word)?;
        rest = after;
    }
    Some(seen)
}

/// The initial colour behind a line `XXC`, of that in front of it; the line has at least one word.
pub fn colour_in(initial: Option<Colour>, rest: &[u8]) -> Option<Option<Colour>>
    ensures { result ≡ extensions.colour_in initial (words rest.now) }
{
    next_word(rest)?;
    colour_behind_all(initial, rest)
}

/// A line `XXZ` or `XXP` with another word is refused.
pub fn are_start_ranks(bytes: &[u8]) -> bool
    ensures { result ≡ extensions.are_start_ranks (words bytes.now) }
{
    let mut rest = bytes;
    while let Some((word, after)) = next_word(rest) {
        match number_of(word) {
            None | Some(0) => return false,
            Some(_) => rest = after,
        }
    }
    true
}

/// A line `XXC` with this word is of a kind that is not supported.
pub(crate) fn has_rank(bytes: &[u8]) -> bool
    ensures { result ≡ list_any (λ word. extensions.is_word word (codes "RANK")) (words bytes.now) }
{
    let mut rest = bytes;
    while let Some((word, after)) = next_word(rest) {
        if is_word(word, b"RANK") {
            return true;
        }
        rest = after;
    }
    false
}

fn is_named(bytes: &[u8], number: u16) -> bool
    ensures { result ≡ extensions.is_named (words bytes.now) number }
{
    let mut rest = bytes;
    while let Some((word, after)) = next_word(rest) {
        if number_of(word) == Some(number) {
            return true;
        }
        rest = after;
    }
    false
}

pub(crate) fn names_both(line: &[u8], utf8: bool, a: u16, b: u16) -> bool
    ensures { result ≡ extensions.names_both a b (columns utf8 line.now) }
{
    let (kind, rest) = split_kind(line, utf8);
    is_word(kind, b"XXP") && is_named(rest, a) && is_named(rest, b)
}
