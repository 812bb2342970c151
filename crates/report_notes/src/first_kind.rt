// The first line of a refused text that is not read for its kind.
ghost use Rattle.std.specs.Prelude.{◌≡◌, option_map};
ghost use Rattle.report_notes.specs.NoteOf.{noted};
ghost use Rattle.trf16_report.specs.Prelude.{lines};
ghost use Rattle.report_notes.specs.RefusalNotes.{first_kind_note, kind_note, kind_note_from};

use crate::kinds::{begins_blank, is_known, kind_in};
use crate::note::Note;
use crate::refusal::has_characters;
use trf16_report::{is_blank, next_line, skip_marks, split_kind};

// Of line n, if it is no player's: that its kind is not known, or else that blanks stand before it.
fn kind_note<'a>(line: &'a [u8], utf8: bool, n: usize) -> Option<Note<'a>>
    ensures { option_map noted result ≡ kind_note utf8 n line.now }
{
    let (front, _) = split_kind(line, utf8);
    if front == b"001".as_slice() || is_blank(line) {
        return None;
    }
    let kind = kind_in(line, utf8);
    if !is_known(kind) {
        Some(Note::UnknownKind { line: n, kind })
    } else if begins_blank(line) {
        Some(Note::BlankBefore { line: n, kind })
    } else {
        None
    }
}

// Of the first line of a text without marks that is no player's, that its kind is not known, or that blanks stand
// before it: which of both it is.
fn kind_note_in(text: &[u8], utf8: bool) -> Option<Note<'_>>
    ensures { option_map noted result ≡ kind_note_from utf8 1 (lines text.now) }
{
    let mut rest = text;
    let mut n = 0;
    while !rest.is_empty() {
        let (line, after) = next_line(rest);
        n += 1;
        if let Some(note) = kind_note(line, utf8, n) {
            return Some(note);
        }
        rest = after;
    }
    None
}

/// Of the first line of a text that is no player's and has a kind that is not known, or blanks before its kind: which
/// of both it is.
pub fn first_kind_note(bytes: &[u8]) -> Option<Note<'_>>
    ensures { option_map noted result ≡ first_kind_note bytes.now }
{
    kind_note_in(skip_marks(bytes), has_characters(bytes))
}
