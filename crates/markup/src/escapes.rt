// Texts in a page: characters that would begin or end a tag, a value or a reference are written as references.
ghost use Rattle.std.specs.Prelude.{◌≡◌, ◌++◌, OnOk};
ghost use Rattle.markup.specs.Escapes.{escaped, escaped_byte};

use std::alloc::AllocError;

// Puts a byte, or the reference that stands for it.
fn put_byte(text: &mut Vec<u8>, byte: u8) -> Result<(), AllocError>
    ensures { OnOk result (text.new.items ≡ text.old.items ++ escaped_byte byte) }
{
    let reference: &[u8] = match byte {
        b'&' => b"&amp;",
        b'<' => b"&lt;",
        b'>' => b"&gt;",
        b'"' => b"&quot;",
        b'\'' => b"&#39;",
        _ => {
            text.push(byte)?;
            return Ok(());
        }
    };
    text.extend_from_slice(reference)
}

/// Puts a text with references in place of `&`, `<`, `>`, `"` and `'`.
pub(crate) fn put_escaped(text: &mut Vec<u8>, bytes: &[u8]) -> Result<(), AllocError>
    ensures { OnOk result (text.new.items ≡ text.old.items ++ escaped bytes.now) }
{
    for byte in bytes {
        put_byte(text, *byte)?;
    }
    Ok(())
}
