// Texts of a report as the page shows them: in UTF-8, whatever the report is.
ghost use Rattle.std.specs.Prelude.{◌≡◌, ◌++◌, IfOk, OnOk};
ghost use Rattle.std.specs.List.{flat_map};
ghost use Rattle.common_texts.specs.Texts.{name_or_dash};
ghost use Rattle.sheets.specs.Texts.{in_utf8, joined_by, latin1_byte, phrase, plain};

use common_texts::{name_or_dash, without_controls};
use std::alloc::{AllocError, Global};

// Puts the character of a byte of a report that is not UTF-8.
fn put_latin1(text: &mut Vec<u8>, byte: u8) -> Result<(), AllocError>
    ensures { OnOk result (text.new.items ≡ text.old.items ++ latin1_byte byte) }
{
    if byte < 0x80 {
        text.push(byte)?;
        return Ok(());
    }
    text.extend_from_slice(&[0xC0 + byte / 64, 0x80 + byte % 64])
}

// A text of a report that is not UTF-8.
fn from_latin1(alloc: Global, bytes: &[u8]) -> Result<Vec<u8>, AllocError>
    ensures { IfOk result (λ text. text.items ≡ flat_map latin1_byte bytes.now) }
{
    let mut text = Vec::new(alloc);
    for byte in bytes {
        put_latin1(&mut text, *byte)?;
    }
    Ok(text)
}

// A text in UTF-8.
fn in_utf8(alloc: Global, utf8: bool, bytes: &[u8]) -> Result<Vec<u8>, AllocError>
    ensures { IfOk result (λ text. text.items ≡ in_utf8 utf8 bytes.now) }
{
    if utf8 {
        Vec::from_slice(alloc, bytes)
    } else {
        from_latin1(alloc, bytes)
    }
}

/// A text in UTF-8, with a question mark in place of each control character.
pub(crate) fn plain(alloc: Global, utf8: bool, bytes: &[u8]) -> Result<Vec<u8>, AllocError>
    ensures { IfOk result (λ text. text.items ≡ plain utf8 bytes.now) }
{
    let text = in_utf8(alloc, utf8, bytes)?;
    without_controls(alloc, text.as_slice())
}

/// A name in UTF-8, with a question mark in place of each control character; a dash where it is blank.
pub(crate) fn shown_name(alloc: Global, utf8: bool, bytes: &[u8]) -> Result<Vec<u8>, AllocError>
    ensures { IfOk result (λ text. text.items ≡ name_or_dash (in_utf8 utf8 bytes.now)) }
{
    let text = in_utf8(alloc, utf8, bytes)?;
    name_or_dash(alloc, text.as_slice())
}

/// Two texts with a mark between them; if one is empty, the other alone.
pub(crate) fn joined_by(
    alloc: Global,
    mark: &str,
    front: &[u8],
    behind: &[u8],
) -> Result<Vec<u8>, AllocError>
    ensures { IfOk result (λ text. text.items ≡ joined_by mark.now front.now behind.now) }
{
    if front.is_empty() {
        return Vec::from_slice(alloc, behind);
    }
    let mut text = Vec::from_slice(alloc, front)?;
    if !behind.is_empty() {
        text.extend_from_slice(mark.as_bytes())?;
        text.extend_from_slice(behind)?;
    }
    Ok(text)
}

/// Two texts with a blank between them; if one is empty, the other alone.
pub(crate) fn phrase(alloc: Global, front: &[u8], behind: &[u8]) -> Result<Vec<u8>, AllocError>
    ensures { IfOk result (λ text. text.items ≡ phrase front.now behind.now) }
{
    joined_by(alloc, " ", front, behind)
}
