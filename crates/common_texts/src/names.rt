// Names as text.
ghost use Rattle.std.specs.Prelude.{◌≡◌, IfOk};
ghost use Rattle.common_texts.specs.Texts.{name_or_dash};

use crate::controls::without_controls;
use std::alloc::{AllocError, Global};

/// A name with a question mark in place of each control character, or a dash where it is blank.
///
/// # Errors
/// Memory was refused.
pub fn name_or_dash(alloc: Global, name: &[u8]) -> Result<Vec<u8>, AllocError>
    ensures { IfOk result (λ text. text.items ≡ name_or_dash name.now) }
{
    if name.is_empty() {
        return Vec::from_slice(alloc, b"-");
    }
    without_controls(alloc, name)
}
