// What a refused line says that an earlier line says already.
ghost use Rattle.std.specs.Prelude.{◌≡◌, ◌++◌, OnOk};
ghost use Rattle.replies.specs.RefusalNoteTexts.{repeated_note, repeated_text};

use common_texts::Page;
use report_notes::{Repeated, first_saying, repeated_at};
use std::alloc::AllocError;

/// Puts what the line of a number says that an earlier line says, and the first line that says it.
pub(crate) fn put_repeated_note(
    text: &mut Page,
    bytes: &[u8],
    line: usize,
) -> Result<(), AllocError>
    ensures { OnOk result (text.new ≡ text.old ++ repeated_note bytes.now line) }
{
    let repeated = repeated_at(bytes, line);
    match first_saying(bytes, repeated) {
        Some(first) => put_repeated(text, line, repeated, first),
        None => Ok(()),
    }
}

#[tactic(auto, unfolding(crate::specs::RefusalNoteTexts::repeated_text))]
fn put_repeated(
    text: &mut Page,
    line: usize,
    repeated: Repeated,
    first: usize,
) -> Result<(), AllocError>
    ensures { OnOk result (text.new ≡ text.old ++ repeated_text line repeated first) }
{
    match repeated {
        Repeated::StartRank(start) => write!(
            text,
            "note line {line}: start rank {start} stands in line {first} too\n"
        ),
        Repeated::Rounds => write!(
            text,
            "note line {line}: the number of rounds stands in line {first} too\n"
        ),
    }
}
