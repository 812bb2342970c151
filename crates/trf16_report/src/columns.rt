// The columns of a line: its characters if the text is UTF-8, otherwise its bytes. They are found once for each
// player's line, up to the last that is read.
ghost use Rattle.std.specs.Prelude.{◌≡◌, ℕ, ◌+◌, ◌-◌, ◌<◌, ◌≤◌, List, [], length, slice_index, take, drop};
ghost use Rattle.std.specs.Prelude.{true, false, not, IfOk};
ghost use Rattle.trf16_report.specs.Lines.{columns, goes_on, text, joined, is_blank};
ghost use Rattle.trf16_report.specs.Steps.{AllStart, place};
ghost use Rattle.trf16_report.specs.declared.limits.TheConstants.{LAST_COLUMN};

use crate::limits::LAST_COLUMN;
use std::alloc::{AllocError, Global};
use std::marker::Model;

/// The columns of a line up to the one that ends the last round that there can be, found once.
#[derive(Drop)]
pub struct Line<'a> {
    bytes: &'a [u8],
    utf8: bool,
    // where the first columns begin, one after the other; none where each byte of the line is a column
    starts: Vec<usize>,
    // where the column behind these begins; from there on each column that is read is a byte
    next: usize,
}

impl<'a> Model for Line<'a> {
    ghost Value = { List (List ℕ) };

    ghost view = { λ l. columns l.utf8 l.bytes.now };

    ghost invariant = { λ l. AllStart l.utf8 l.bytes.now l.starts.items l.next (LAST_COLUMN + 1) };
}

// How many bytes in front go on with a character.
fn follow_len(bytes: &[u8]) -> usize
    ensures within { result ≤ length bytes.now }
    ensures inside { (k : ℕ) → k < result → goes_on (slice_index bytes.now k) ≡ true }
    ensures behind { result < length bytes.now → goes_on (slice_index bytes.now result) ≡ false }
{
    bytes
        .iter()
        .position(|byte| *byte < 0x80 || 0xC0 <= *byte)
        .unwrap_or(bytes.len())
}

/// How many bytes the first column has; none if the line is at its end.
pub(crate) fn column_len(bytes: &[u8], utf8: bool) -> usize
    ensures within { result ≤ length bytes.now }
    ensures first { take result bytes.now ≡ joined (take 1 (columns utf8 bytes.now)) }
    ensures rest { columns utf8 (drop result bytes.now) ≡ drop 1 (columns utf8 bytes.now) }
{
    let Some((_, rest)) = bytes.split_first() else {
        return 0;
    };
    if utf8 { 1 + follow_len(rest) } else { 1 }
}

// How many bytes in front may belong to characters of several bytes; behind them each byte is a column. Most lines have
// no such character, and then no place has to be listed.
fn mixed_len(bytes: &[u8], utf8: bool) -> usize
    ensures within { result ≤ length bytes.now }
    ensures behind { utf8 ≡ true → (k : ℕ) → result ≤ k → slice_index bytes.now k < 0x80 }
{
    if !utf8 || bytes.is_ascii() {
        return 0;
    }
    bytes
        .iter()
        .rposition(|byte| 0x80 <= *byte)
        .map_or(0, |last| last + 1)
}

// The place of the column of which k stand in front: the first places are listed, and each further column begins a byte
// behind the one before it, up to the end of the line.
fn place_at(starts: &[usize], next: usize, end: usize, k: usize) -> usize
    ensures { result ≡ place starts.now next end k }
{
    if k < starts.len() {
        return starts[k];
    }
    end.min(next.saturating_add(k - starts.len()))
}

impl<'a> Line<'a> {
    /// Finds the columns of a line.
    pub fn new(alloc: Global, bytes: &'a [u8], utf8: bool) -> Result<Line<'a>, AllocError>
        ensures { IfOk result (λ line. line ≡ columns utf8 bytes.now) }
    {
        let mixed = mixed_len(bytes, utf8);
        let mut starts = Vec::with_capacity(alloc, mixed.min(LAST_COLUMN + 1))?;
        let mut next = 0;
        while next < mixed && starts.len() <= LAST_COLUMN {
            starts.push(next)?;
            let (_, rest) = bytes.split_at(next);
            next += column_len(rest, utf8);
        }
        Ok(Line {
            bytes,
            utf8,
            starts,
            next,
        })
    }

    /// The bytes of the columns `first` to `last`, which count from 1.
    pub fn text(&self, first: usize, last: usize) -> &'a [u8]
        requires from_one { 0 < first }
        requires in_order { first ≤ last + 1 }
        requires in_reach { last ≤ LAST_COLUMN }
        ensures { result.now ≡ text self.now first last }
    {
        let len = self.bytes.len();
        let start = place_at(&self.starts, self.next, len, first - 1);
        let end = place_at(&self.starts, self.next, len, last);
        self.bytes.split_at(end).0.split_at(start).1
    }

    /// A no is certain; a column that is not known to be missing is taken to be there.
    pub fn reaches(&self, column: usize) -> bool
        requires from_one { 0 < column }
        requires in_reach { column ≤ LAST_COLUMN }
        ensures { result ≡ false → drop (column - 1) self.now ≡ [] }
    {
        let len = self.bytes.len();
        place_at(&self.starts, self.next, len, column - 1) < len
    }

    /// Blanks behind the last column that is read are allowed.
    pub fn is_too_long(&self) -> bool
        ensures { result ≡ not (is_blank (joined (drop LAST_COLUMN self.now))) }
    {
        let end = place_at(&self.starts, self.next, self.bytes.len(), LAST_COLUMN);
        let (_, rest) = self.bytes.split_at(end);
        !is_blank(rest)
    }
}

/// The first columns of a line, and what stands behind them.
pub fn split_columns(bytes: &[u8], utf8: bool, count: usize) -> (&[u8], &[u8])
    ensures front { result.0.now ≡ joined (take count (columns utf8 bytes.now)) }
    ensures back { columns utf8 result.1.now ≡ drop count (columns utf8 bytes.now) }
    ensures rest { result.1.now ≡ joined (drop count (columns utf8 bytes.now)) }
{
    let mut len = 0;
    for _ in 0..count {
        let (_, rest) = bytes.split_at(len);
        len += column_len(rest, utf8);
    }
    bytes.split_at(len)
}

/// The first three columns of a line, and what stands behind them.
pub fn split_kind(bytes: &[u8], utf8: bool) -> (&[u8], &[u8])
    ensures kind { result.0.now ≡ text (columns utf8 bytes.now) 1 3 }
    ensures rest { result.1.now ≡ joined (drop 3 (columns utf8 bytes.now)) }
{
    split_columns(bytes, utf8, 3)
}

/// How many columns a text has: characters if it is of a UTF-8 text, otherwise bytes. The time grows with the text.
pub fn column_count(bytes: &[u8], utf8: bool) -> usize
    ensures { result ≡ length (columns utf8 bytes.now) }
{
    let mut rest = bytes;
    let mut count = 0;
    while !rest.is_empty() {
        let (_, after) = rest.split_at(column_len(rest, utf8));
        rest = after;
        count += 1;
    }
    count
}

/// Yes if there is nothing but blanks, and so if there is nothing.
pub fn is_blank(bytes: &[u8]) -> bool
    ensures { result ≡ is_blank bytes.now }
{
    bytes.iter().all(|byte| *byte == b' ')
}
