// A cursor, which is an arrangement of a bracket, and its text, specified by what printing gives and which texts are
// one.
ghost use Rattle.std.specs.Prelude.{◌≡◌, ℕ, ◌++◌, ◌+◌, ◌*◌, ◌<◌, ◌≤◌, ◌≢◌, ◌∷◌, [], slice_index, codes, decimal};
ghost use Rattle.std.specs.Prelude.{is_some, length, true, false, Some, None, MatchOption, IfSome, ◌&&◌};
ghost use Rattle.std.specs.Char.{is_ascii_digit};
ghost use Rattle.std.specs.List.{list_all, flat_map};
ghost use Rattle.dutch_sequence.specs.Choices.{left_of};
ghost use Rattle.dutch_arrangements.specs.Cursors as cursors;
ghost use Rattle.dutch_arrangements.specs.CursorLists.{IsLong, is_short};
ghost use Rattle.arrayvec.specs.ArrayString.{array_string_len};

use crate::arrangement::Arrangement;
use crate::bracket::{Bracket, Shape};
use arrayvec::ArrayString;
use dutch_sequence::numbers::left_of;
use dutch_sequence::{LIMIT, Numbers};
use itoa::Buffer;
use std::marker::Model;
use thiserror::Error;

/// A cursor: an arrangement of a bracket, legal or not (C.04.3 B.2), from which the candidates behind it can be asked
/// for.
#[derive(Drop)]
pub struct Cursor {
    pub lists: Arrangement,
}

impl Model for Cursor {
    ghost use Rattle.dutch_arrangements.specs.Arrangements.{Arrangement};

    ghost Value = { Arrangement };

    ghost view = { λ c. c.lists };
}

/// Why a text is no cursor of a bracket and shape.
#[derive(Debug, Clone, Copy, PartialEq, Eq, Error)]
pub enum CursorFault {
    /// The text does not have the form of a cursor, or a number in it is over `LIMIT`.
    #[error("bad cursor")]
    Syntax,
    /// The lists are no arrangement of the bracket and shape.
    #[error("cursor is not of this bracket")]
    NotOfBracket,
}

/// The bytes of the longest text: each of the four lists has at most `LIMIT` numbers, each number at most five digits,
/// and with each number there is at most one separator.
pub const TEXT_LIMIT: usize = 4 * 6 * LIMIT;

/// The text of a cursor. Every cursor has room in it.
pub type CursorText = ArrayString<TEXT_LIMIT>;

// Where the first separator stands, or the text's length where there is none.
fn part_len(text: &[u8], separator: u8) -> usize
    ensures within { result ≤ length text.now }
    ensures inside { (k : ℕ) → k < result → slice_index text.now k ≢ separator }
    ensures behind { result < length text.now → slice_index text.now result ≡ separator }
{
    for (i, byte) in text.iter().enumerate() {
        if *byte == separator {
            return i;
        }
    }
    text.len()
}

// The first part of a text and what stands behind its separator, or none where there is only one part.
fn split_part(text: &[u8], separator: u8) -> Option<(&[u8], &[u8])>
    ensures parts { MatchOption result (cursors.parts separator text.now ≡ text.now ∷ [])
        (λ x. cursors.parts separator text.now ≡ x.0.now ∷ cursors.parts separator x.1.now) }
    ensures shorter { IfSome result (λ x. length x.1.now < length text.now) }
{
    let len = part_len(text, separator);
    if len == text.len() {
        return None;
    }
    let (part, rest) = text.split_at(len);
    Some((part, rest.split_at(1).1))
}

// The number that one to four digits spell.
fn number_after(digits: &[u8]) -> u16
    requires few { length digits.now ≤ 4 }
    requires decimal { list_all is_ascii_digit digits.now ≡ true }
    ensures { result ≡ cursors.number_after 0 digits.now }
{
    let mut value = 0;
    for digit in digits {
        value = 10 * value + u16::from(*digit - b'0');
    }
    value
}

fn has_digits_alone(word: &[u8]) -> bool
    ensures { result ≡ list_all is_ascii_digit word.now }
{
    word.iter().all(|byte| byte.is_ascii_digit())
}

// At most four digits, of which the first is not 0: each number is spelled in one way.
fn is_numeral(word: &[u8]) -> bool
    ensures { result ≡ cursors.is_numeral word.now }
{
    match word {
        [] => false,
        [first, rest @ ..] => *first != b'0' && rest.len() <= 3 && has_digits_alone(word),
    }
}

// The number that a part of a list spells.
fn number_of(word: &[u8]) -> Option<u16>
    ensures { result ≡ cursors.number_of word.now }
{
    if !is_numeral(word) {
        return None;
    }
    let number = number_after(word);
    if number as usize <= LIMIT {
        Some(number)
    } else {
        None
    }
}

fn are_numbers(text: &[u8]) -> bool
    ensures { result ≡ is_some (cursors.numbers_of (cursors.parts 44 text.now)) }
{
    let mut rest = text;
    while let Some((word, behind)) = split_part(rest, b',') {
        if number_of(word).is_none() {
            return false;
        }
        rest = behind;
    }
    number_of(rest).is_some()
}

// `0` alone is the empty list.
fn is_list(text: &[u8]) -> bool
    ensures { result ≡ is_some (cursors.list_of text.now) }
{
    text == b"0".as_slice() || are_numbers(text)
}

// The four parts between slashes.
#[derive(Clone, Copy)]
struct Lists<'a> {
    s1: &'a [u8],
    s2: &'a [u8],
    s1r: &'a [u8],
    s2r: &'a [u8],
}

// The four parts of a text, or none where it has fewer or more.
fn split_lists(text: &[u8]) -> Option<Lists<'_>>
    ensures { MatchOption result (cursors.parsed text.now ≡ None)
        (λ x. cursors.parts 47 text.now ≡ x.s1.now ∷ x.s2.now ∷ x.s1r.now ∷ x.s2r.now ∷ []) }
{
    let (s1, rest) = split_part(text, b'/')?;
    let (s2, rest) = split_part(rest, b'/')?;
    let (s1r, rest) = split_part(rest, b'/')?;
    match split_part(rest, b'/') {
        Some(_) => None,
        None => Some(Lists {
            s1,
            s2,
            s1r,
            s2r: rest,
        }),
    }
}

fn are_lists(lists: &Lists<'_>) -> bool
    ensures { result ≡ is_some (cursors.arrangement_of
        (lists.now.s1.now ∷ lists.now.s2.now ∷ lists.now.s1r.now ∷ lists.now.s2r.now ∷ [])) }
{
    is_list(lists.s1) && is_list(lists.s2) && is_list(lists.s1r) && is_list(lists.s2r)
}

// The four parts of a text that has the form of a cursor.
fn sound_lists(text: &[u8]) -> Option<Lists<'_>>
    ensures { MatchOption result (cursors.parsed text.now ≡ None)
        (λ x. (cursors.parts 47 text.now ≡ x.s1.now ∷ x.s2.now ∷ x.s1r.now ∷ x.s2r.now ∷ [])
        × (is_some (cursors.parsed text.now) ≡ true)) }
{
    let lists = split_lists(text)?;
    if are_lists(&lists) { Some(lists) } else { None }
}

// The numbers between commas, where all parts are numbers and there is room for them.
fn numbers_in(text: &[u8]) -> Option<Numbers>
    ensures { MatchOption result (IsLong (cursors.numbers_of (cursors.parts 44 text.now)))
        (λ x. cursors.numbers_of (cursors.parts 44 text.now) ≡ Some x.items) }
{
    let mut numbers = Numbers::new();
    let mut rest = text;
    while let Some((word, behind)) = split_part(rest, b',') {
        let number = number_of(word)?;
        if numbers.is_full() {
            return None;
        }
        numbers.push(number);
        rest = behind;
    }
    let number = number_of(rest)?;
    if numbers.is_full() {
        return None;
    }
    numbers.push(number);
    Some(numbers)
}

// The list that a text is, where it is one and there is room for it.
fn list_in(text: &[u8]) -> Option<Numbers>
    ensures { MatchOption result (IsLong (cursors.list_of text.now)) (λ x. cursors.list_of text.now ≡ Some x.items) }
{
    if text == b"0".as_slice() {
        return Some(Numbers::new());
    }
    numbers_in(text)
}

// The arrangement that four parts are, where they are one and there is room for it.
fn arrangement_in(lists: &Lists<'_>) -> Option<Arrangement>
    ensures { MatchOption result
        (IfSome (cursors.arrangement_of (lists.now.s1.now ∷ lists.now.s2.now ∷ lists.now.s1r.now ∷ lists.now.s2r.now
        ∷ []))
        (λ a. is_short a ≡ false))
        (λ x. cursors.arrangement_of (lists.now.s1.now ∷ lists.now.s2.now ∷ lists.now.s1r.now ∷ lists.now.s2r.now ∷ [])
        ≡ Some x) }
{
    let s1 = list_in(lists.s1)?;
    let s2 = list_in(lists.s2)?;
    let s1r = list_in(lists.s1r)?;
    let s2r = list_in(lists.s2r)?;
    Some(Arrangement { s1, s2, s1r, s2r })
}

fn are_of(pool: &[u16], numbers: &[u16]) -> bool
    ensures { result ≡ cursors.are_of pool.now numbers.now }
{
    numbers.iter().all(|number| pool.contains(number))
}

fn ascends_above(bound: u16, numbers: &[u16]) -> bool
    ensures { result ≡ cursors.ascends_above bound numbers.now }
{
    let mut last = bound;
    for number in numbers {
        if *number <= last {
            return false;
        }
        last = *number;
    }
    true
}

fn are_different(numbers: &[u16]) -> bool
    ensures { result ≡ cursors.are_different numbers.now }
{
    for (i, number) in numbers.iter().enumerate() {
        if numbers.split_at(i + 1).1.contains(number) {
            return false;
        }
    }
    true
}

fn is_set_of(pool: &[u16], k: usize, set: &[u16]) -> bool
    ensures { result ≡ cursors.is_set_of pool.now k set.now }
{
    set.len() == k && are_of(pool, set) && ascends_above(0, set)
}

fn is_tuple_of(pool: &[u16], k: usize, tuple: &[u16]) -> bool
    ensures { result ≡ cursors.is_tuple_of pool.now k tuple.now }
{
    tuple.len() == k && are_of(pool, tuple) && are_different(tuple)
}

// Appends a number to a text.
fn push_number(text: &mut CursorText, number: u16)
    requires room { array_string_len text.old + 5 ≤ TEXT_LIMIT }
    ensures bytes { text.new.bytes ≡ text.old.bytes ++ decimal number }
    ensures bound { array_string_len text.new ≤ array_string_len text.old + 5 }
{
    let mut buffer = Buffer::new();
    text.push_str(buffer.format(number));
}

// Appends the numbers behind the first of a list, each with a comma in front.
fn push_others(text: &mut CursorText, others: &[u16])
    requires room { array_string_len text.old + 6 * length others.now ≤ TEXT_LIMIT }
    ensures bytes { text.new.bytes ≡ text.old.bytes ++ flat_map (λ y. codes "," ++ decimal y) others.now }
    ensures bound { array_string_len text.new ≤ array_string_len text.old + 6 * length others.now }
{
    for other in others {
        text.push_str(",");
        push_number(text, *other);
    }
}

// Appends a list to a text. Of the room for `LIMIT` numbers of six bytes each it leaves enough for a slash.
fn push_list(text: &mut CursorText, numbers: &[u16])
    requires few { length numbers.now ≤ LIMIT }
    requires room { array_string_len text.old + 6 * LIMIT ≤ TEXT_LIMIT }
    ensures bytes { text.new.bytes ≡ text.old.bytes ++ cursors.list_text numbers.now }
    ensures bound { array_string_len text.new + 1 ≤ array_string_len text.old + 6 * LIMIT }
{
    match numbers {
        [] => text.push_str("0"),
        [first, others @ ..] => {
            push_number(text, *first);
            push_others(text, others);
        }
    }
}

impl Cursor {
    /// The same cursor once more.
    pub fn copy(&self) -> Cursor
        ensures { result ≡ self.now }
    {
        Cursor {
            lists: self.lists.copy(),
        }
    }

    /// Yes if the text has the form of a cursor, of whatever bracket: four lists joined by `/`, each of them numbers
    /// from 1 to `LIMIT` joined by `,`, or `0` alone if it is empty.
    pub fn syntax(text: &str) -> bool
        ensures { result ≡ cursors.has_syntax text.now }
    {
        sound_lists(text.as_bytes()).is_some()
    }

    fn has_remainder(&self, residents: &[u16], pairs: usize) -> bool
        requires few { length residents.now ≤ LIMIT }
        ensures { result ≡ (cursors.is_set_of (left_of residents.now self.now.s2) pairs self.now.s1r
            && cursors.is_tuple_of (left_of (left_of residents.now self.now.s2) self.now.s1r) pairs self.now.s2r) }
    {
        let remainder = left_of(residents, &self.lists.s2);
        if !is_set_of(&remainder, pairs, &self.lists.s1r) {
            return false;
        }
        is_tuple_of(
            &left_of(&remainder, &self.lists.s1r),
            pairs,
            &self.lists.s2r,
        )
    }

    fn is_among(&self, moved_down: &[u16], residents: &[u16], shape: Shape) -> bool
        requires few { length residents.now ≤ LIMIT }
        ensures { result ≡ cursors.is_among moved_down.now residents.now shape self.now }
    {
        is_set_of(moved_down, shape.mdps, &self.lists.s1)
            && is_tuple_of(residents, shape.mdps, &self.lists.s2)
            && self.has_remainder(residents, shape.pairs.saturating_sub(shape.mdps))
    }

    /// The cursor that a text is: its players are numbers in the bracket, which count from 1. The fault is `Syntax`
    /// exactly if `syntax` answers false, and `NotOfBracket` if the lists are no arrangement of the bracket and shape:
    /// lengths other than the shape's, a number not in its place's pool, a repeated number, or S1 or S1R not ascending.
    pub fn read(text: &str, bracket: &Bracket, shape: Shape) -> Result<Cursor, CursorFault>
        ensures { result ≡ cursors.cursor_of bracket.now shape text.now }
    {
        let Some(lists) = sound_lists(text.as_bytes()) else {
            return Err(CursorFault::Syntax);
        };
        let moved_down = bracket.moved_down();
        let residents = bracket.residents();
        let Some(lists) = arrangement_in(&lists) else {
            return Err(CursorFault::NotOfBracket);
        };
        let cursor = Cursor { lists };
        if !cursor.is_among(&moved_down, &residents, shape) {
            return Err(CursorFault::NotOfBracket);
        }
        Ok(cursor)
    }

    /// The text of this cursor, which `read` reads back as the same cursor.
    pub fn print(&self) -> CursorText
        ensures { result.bytes ≡ cursors.cursor_text self.now }
    {
        let mut text = ArrayString::new();
        push_list(&mut text, &self.lists.s1);
        text.push_str("/");
        push_list(&mut text, &self.lists.s2);
        text.push_str("/");
        push_list(&mut text, &self.lists.s1r);
        text.push_str("/");
        push_list(&mut text, &self.lists.s2r);
        text
    }
}
