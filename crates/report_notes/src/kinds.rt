// The kinds of lines that are known.
ghost use Rattle.std.specs.Prelude.{◌≡◌};
ghost use Rattle.std.specs.List.{list_any};
ghost use Rattle.trf16_report.specs.Prelude.{words, is_word};
ghost use Rattle.report_notes.specs.Notes.{begins_blank, is_known, kind_in};

use trf16_report::{is_word, next_word, split_kind, without_blanks};

fn is_among(kind: &[u8], kinds: &[u8]) -> bool
    ensures { result ≡ list_any (is_word kind.now) (words kinds.now) }
{
    let mut rest = kinds;
    while let Some((word, after)) = next_word(rest) {
        if is_word(kind, word) {
            return true;
        }
        rest = after;
    }
    false
}

/// Known are the kinds that are read, those that refuse a command, and those of TRF16 that are carried.
#[tactic(auto, unfolding(crate::specs::Notes::is_known))]
pub(crate) fn is_known(kind: &[u8]) -> bool
    ensures { result ≡ is_known kind.now }
{
    is_among(
        kind,
        b"001 012 013 022 032 042 052 062 072 082 092 102 112 122 132 XXA XXC XXP XXR XXS XXZ",
    )
}

/// The kind of a line: its first three columns, whatever blanks stand in front of them.
pub(crate) fn kind_in(line: &[u8], utf8: bool) -> &[u8]
    ensures { result.now ≡ kind_in utf8 line.now }
{
    split_kind(without_blanks(line), utf8).0
}

pub(crate) fn begins_blank(line: &[u8]) -> bool
    ensures { result ≡ begins_blank line.now }
{
    match line.first() {
        Some(b' ') => true,
        _ => false,
    }
}
