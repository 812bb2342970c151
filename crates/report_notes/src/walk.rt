// The notes of a report, one after the other.
ghost use Rattle.std.specs.Prelude.{◌≡◌, ◌∷◌, ◌<◌, [], MatchOption, length};
ghost use Rattle.trf16_report.specs.Prelude.{Sheet};
ghost use Rattle.report_notes.specs.Notes.{notes_of};
ghost use Rattle.report_notes.specs.NoteOf.{left_notes, noted};
ghost use Rattle.report_notes.specs.Places.{coming};

use crate::closing::{ClosingLeft, next_of_closing};
use crate::line::{Left, line_left, next_left};
use crate::note::Note;
use crate::place::Place;
use trf16_report::{Report, next_line, skip_marks};

impl<'a> Place<'a> {
    /// The place in front of all notes of the report that stands in some bytes.
    pub fn first(bytes: &'a [u8]) -> Place<'a>
        ensures { (sheet : Sheet) → coming sheet result ≡ notes_of sheet bytes.now }
    {
        Place {
            text: skip_marks(bytes),
            line: 0,
            left: Left::Nothing,
            closing: ClosingLeft::all(),
        }
    }

    // The place in front of the notes of the next line.
    fn behind_line(self, report: &Report<'_>) -> Place<'a>
        requires { 0 < length self.text.now }
        ensures same { left_notes report.now self.entry.line self.entry.left ≡ []
            → coming report.now result ≡ coming report.now self.entry }
        ensures shorter { length result.text.now < length self.entry.text.now }
    {
        let (line, text) = next_line(self.text);
        let n = self.line + 1;
        Place {
            text,
            line: n,
            left: line_left(report, n, line),
            closing: self.closing,
        }
    }
}

/// The first note behind a place, and the place behind it; none where no further note comes.
pub fn next_note<'a>(report: &Report<'_>, place: Place<'a>) -> Option<(Note<'a>, Place<'a>)>
    ensures { MatchOption result (coming report.now place.entry ≡ [])
        (λ x. coming report.now place.entry ≡ noted x.0 ∷ coming report.now x.1) }
{
    let mut at = place;
    loop {
        if let Some((note, left)) = next_left(report, at.line, at.left) {
            let after = Place {
                text: at.text,
                line: at.line,
                left,
                closing: at.closing,
            };
            return Some((note, after));
        }
        if at.text.is_empty() {
            let (note, closing) = next_of_closing(report, at.closing)?;
            let after = Place {
                text: at.text,
                line: at.line,
                left: at.left,
                closing,
            };
            return Some((note, after));
        }
        at = at.behind_line(report);
    }
}
