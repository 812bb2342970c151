// The fields of a player's line.
ghost use Rattle.std.specs.Prelude.{◌≡◌};
ghost use Rattle.trf16_report.specs.Prelude.{columns, number_in, words};
ghost use Rattle.report_notes.specs.Games.{start_in};

use trf16_report::{next_word, number_of, split_columns};

/// The one number of a field.
pub(crate) fn number_in(field: &[u8]) -> Option<u16>
    ensures { result ≡ number_in (words field.now) }
{
    let (word, rest) = next_word(field)?;
    match next_word(rest) {
        Some(_) => None,
        None => number_of(word),
    }
}

/// The start rank in columns 5 to 8, or 0.
pub(crate) fn start_in(line: &[u8], utf8: bool) -> u16
    ensures { result ≡ start_in (columns utf8 line.now) }
{
    let (_, behind) = split_columns(line, utf8, 4);
    number_in(split_columns(behind, utf8, 4).0).unwrap_or(0)
}
