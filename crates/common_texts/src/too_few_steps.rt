// What is said where the steps did not suffice.
ghost use Rattle.std.specs.Prelude.{◌≡◌, ◌++◌, OnOk};
ghost use Rattle.common_texts.specs.Texts.{undecided_text, undecided_words};

use crate::page::Page;
use std::alloc::AllocError;

/// Puts that the steps of a bracket reached the limit before it was decided.
pub fn put_undecided(text: &mut Page, number: u16, used: u64) -> Result<(), AllocError>
    ensures { OnOk result (text.new ≡ text.old ++ undecided_text number used) }
{
    write!(text, "undecided bracket {number} steps {used}\n")
}

/// Puts the same in a sentence.
pub fn put_undecided_words(text: &mut Page, number: u16, used: u64) -> Result<(), AllocError>
    ensures { OnOk result (text.new ≡ text.old ++ undecided_words number used) }
{
    write!(
        text,
        "Undecided: bracket {number} needs more than {used} steps.\n"
    )
}
