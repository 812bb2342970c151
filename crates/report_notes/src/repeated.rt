// What a line of a refused text says that an earlier line says already.
ghost use Rattle.std.specs.Prelude.{◌≡◌};
ghost use Rattle.trf16_report.specs.Prelude.{columns, lines};
ghost use Rattle.report_notes.specs.RefusalNotes.{first_saying, first_saying_from, repeated_at, says};

use crate::fields::start_in;
use crate::refusal::{has_characters, line_in};
use crate::two_cells::is_line_of;
use trf16_report::{is_word, next_line, skip_marks, split_kind};

/// What may stand in one line alone.
#[derive(Clone, Copy)]
pub enum Repeated {
    /// A player's start rank.
    StartRank(u16),
    /// The number of rounds, in a line `XXR`.
    Rounds,
}

/// What the line of a number, from 1, repeats: a player's their start rank, and another one the number of rounds.
pub fn repeated_at(bytes: &[u8], n: usize) -> Repeated
    ensures { result ≡ repeated_at bytes.now n }
{
    let utf8 = has_characters(bytes);
    let line = line_in(bytes, n);
    let (kind, _) = split_kind(line, utf8);
    if kind == b"001".as_slice() {
        Repeated::StartRank(start_in(line, utf8))
    } else {
        Repeated::Rounds
    }
}

fn says(repeated: Repeated, line: &[u8], utf8: bool) -> bool
    ensures { result ≡ says repeated (columns utf8 line.now) }
{
    match repeated {
        Repeated::StartRank(start) => is_line_of(line, utf8, start),
        Repeated::Rounds => is_word(split_kind(line, utf8).0, b"XXR"),
    }
}

// The first line of a text without marks that says it.
fn first_in(text: &[u8], utf8: bool, repeated: Repeated) -> Option<usize>
    ensures { result ≡ first_saying_from repeated utf8 1 (lines text.now) }
{
    let mut rest = text;
    let mut n = 0;
    while !rest.is_empty() {
        let (line, after) = next_line(rest);
        n += 1;
        if says(repeated, line, utf8) {
            return Some(n);
        }
        rest = after;
    }
    None
}

/// The number of the first line, from 1, that says it. The time grows with the text.
pub fn first_saying(bytes: &[u8], repeated: Repeated) -> Option<usize>
    ensures { result ≡ first_saying bytes.now repeated }
{
    first_in(skip_marks(bytes), has_characters(bytes), repeated)
}
