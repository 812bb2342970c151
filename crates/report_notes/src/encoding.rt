// Texts in UTF-16, which no report is.
ghost use Rattle.std.specs.Prelude.{◌≡◌};
ghost use Rattle.report_notes.specs.RefusalNotes.{byte_order, zero_byte};

/// Which byte of two comes first in a text in UTF-16.
#[derive(Clone, Copy)]
pub enum ByteOrder {
    /// The text begins with the bytes FF FE.
    Little,
    /// The text begins with the bytes FE FF.
    Big,
}

/// The byte order of a text in UTF-16, by the mark at its front.
pub fn byte_order(bytes: &[u8]) -> Option<ByteOrder>
    ensures { result ≡ byte_order bytes.now }
{
    match bytes {
        [0xFF, 0xFE, ..] => Some(ByteOrder::Little),
        [0xFE, 0xFF, ..] => Some(ByteOrder::Big),
        _ => None,
    }
}

/// Which of the first two bytes of a text is 00, from 1: in UTF-16 the half of a character.
pub fn zero_byte(bytes: &[u8]) -> Option<usize>
    ensures { result ≡ zero_byte bytes.now }
{
    match bytes {
        [0, ..] => Some(1),
        [_, 0, ..] => Some(2),
        _ => None,
    }
}
