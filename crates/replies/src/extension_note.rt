// What a refused extension line wants.
ghost use Rattle.std.specs.Prelude.{◌≡◌, ◌++◌, OnOk};
ghost use Rattle.replies.specs.RefusalNoteTexts.{extension_note, wanted_text};

use common_texts::Page;
use report_notes::{Extension, extension_at};
use std::alloc::AllocError;

/// Puts what a line of a text wants, if it is of the kind of an extension that is read.
#[tactic(auto, unfolding(crate::specs::RefusalNoteTexts::extension_text))]
pub(crate) fn put_extension_note(
    text: &mut Page,
    bytes: &[u8],
    line: usize,
) -> Result<(), AllocError>
    ensures { OnOk result (text.new ≡ text.old ++ extension_note bytes.now line) }
{
    match extension_at(bytes, line) {
        Some(extension) => {
            let wanted = wanted_text(extension);
            write!(text, "note line {line}: {wanted}")
        }
        None => Ok(()),
    }
}

// What an extension wants.
fn wanted_text(extension: Extension) -> &'static str
    ensures { result.now ≡ wanted_text extension }
{
    match extension {
        Extension::Xxr => "XXR wants one number of rounds\n",
        Extension::Xxc => "XXC wants white1 or black1, and rank if you like\n",
        Extension::Xxz => "XXZ wants numbers from 1 to 9999 with blanks between them\n",
        Extension::Xxp => "XXP wants numbers from 1 to 9999 with blanks between them\n",
    }
}
