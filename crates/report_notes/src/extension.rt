// The extension lines that are read.
ghost use Rattle.std.specs.Prelude.{◌≡◌};
ghost use Rattle.report_notes.specs.RefusalNotes.{extension_at};

use crate::refusal::{has_characters, line_in};
use trf16_report::{is_word, split_kind};

/// The kind of an extension line that is read.
#[derive(Clone, Copy)]
pub enum Extension {
    /// The number of rounds.
    Xxr,
    /// The initial colour.
    Xxc,
    /// Players who are absent from the next round.
    Xxz,
    /// Players who do not meet in the next round.
    Xxp,
}

/// The kind of the line of a number, from 1, if it is one of these. The time grows with the text.
pub fn extension_at(bytes: &[u8], n: usize) -> Option<Extension>
    ensures { result ≡ extension_at bytes.now n }
{
    let (kind, _) = split_kind(line_in(bytes, n), has_characters(bytes));
    if is_word(kind, b"XXR") {
        Some(Extension::Xxr)
    } else if is_word(kind, b"XXC") {
        Some(Extension::Xxc)
    } else if is_word(kind, b"XXZ") {
        Some(Extension::Xxz)
    } else if is_word(kind, b"XXP") {
        Some(Extension::Xxp)
    } else {
        None
    }
}
