// Control characters in a text, which make a terminal do something in place of showing a letter. They are found by
// bytes, whether or not the report is UTF-8: a terminal that reads UTF-8 acts on the two bytes of U+0080 to U+009F in
// any text.
ghost use Rattle.std.specs.Prelude.{◌≡◌, ◌≤◌, ◌++◌, ◌∷◌, IfOk, OnOk, false, length};
ghost use Rattle.common_texts.specs.Controls.{holds_control, is_control, is_long_control, shown_byte, without_controls};

use crate::page::Page;
use std::alloc::{AllocError, Global};

/// A text with a question mark in place of each control character: a byte below 32, 127, or the two bytes of U+0080 to
/// U+009F in UTF-8.
///
/// # Errors
/// Memory was refused.
pub fn without_controls(alloc: Global, text: &[u8]) -> Result<Vec<u8>, AllocError>
    ensures shown { IfOk result (λ shown. shown.items ≡ without_controls text.now) }
    ensures free { IfOk result (λ shown. holds_control shown.items ≡ false) }
{
    let mut shown = Vec::with_capacity(alloc, text.len())?;
    let mut rest = text;
    while let [first, behind @ ..] = rest {
        let (byte, after) = first_shown(*first, behind);
        shown.push(byte)?;
        rest = after;
    }
    Ok(shown)
}

/// Puts the same of a text.
///
/// # Errors
/// Memory was refused.
pub fn put_without_controls(text: &mut Page, more: &[u8]) -> Result<(), AllocError>
    ensures { OnOk result (text.new ≡ text.old ++ without_controls more.now) }
{
    let shown = without_controls(text.allocator(), more)?;
    text.push_bytes(shown.as_slice())
}

// What is shown of the character that begins with a byte, and what stands behind that character.
fn first_shown(first: u8, behind: &[u8]) -> (u8, &[u8])
    ensures first { without_controls (first ∷ behind.now) ≡ result.0 ∷ without_controls result.1.now }
    ensures shorter { length result.1.now ≤ length behind.now }
{
    match behind.split_first() {
        Some((second, after)) if is_long_control(first, *second) => (b'?', after),
        _ => (shown_byte(first), behind),
    }
}

fn is_long_control(first: u8, second: u8) -> bool
    ensures { result ≡ is_long_control first second }
{
    first == 0xC2 && 0x80 <= second && second < 0xA0
}

fn is_control(byte: u8) -> bool
    ensures { result ≡ is_control byte }
{
    byte < 0x20 || byte == 0x7F
}

fn shown_byte(byte: u8) -> u8
    ensures { result ≡ shown_byte byte }
{
    if is_control(byte) { b'?' } else { byte }
}
