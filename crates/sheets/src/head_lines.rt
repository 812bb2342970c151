// The lines of a report that say of the whole event what it is.
ghost use Rattle.std.specs.Prelude.{◌≡◌, ◌≤◌, IfOk};
ghost use Rattle.trf16_report.specs.declared.limits.TheConstants.{MOST_ROUNDS};
ghost use Rattle.sheets.specs.HeadLines.{date_in, first_line, head_text, said_in};

use crate::texts::plain;
use std::alloc::{AllocError, Global};
use trf16_report::{Line, Report, is_word, split_columns, split_kind, without_blanks};

/// The first line of a kind; nothing if there is none. The time grows with the text.
pub(crate) fn first_line<'a>(report: &Report<'a>, kind: &[u8]) -> &'a [u8]
    ensures { result.now ≡ first_line report.now kind.now }
{
    let utf8 = report.is_utf8();
    let mut lines = report.carried_lines();
    while let Some(carried) = lines.next() {
        if let Some(line) = carried {
            if is_word(split_kind(line, utf8).0, kind) {
                return line;
            }
        }
    }
    &[]
}

// What a line says: its columns from 5 on.
fn said_in(alloc: Global, utf8: bool, line: &[u8]) -> Result<Vec<u8>, AllocError>
    ensures { IfOk result (λ text. text.items ≡ said_in utf8 line.now) }
{
    let (_, said) = split_columns(line, utf8, 4);
    plain(alloc, utf8, without_blanks(said))
}

/// What the first line of a kind says; nothing if there is none.
pub(crate) fn head_text(
    alloc: Global,
    report: &Report<'_>,
    kind: &[u8],
) -> Result<Vec<u8>, AllocError>
    ensures { IfOk result (λ text. text.items ≡ head_text report.now kind.now) }
{
    said_in(alloc, report.is_utf8(), first_line(report, kind))
}

/// The date of a round in a line `132`; nothing if it has none.
pub(crate) fn date_in(
    alloc: Global,
    utf8: bool,
    dates: &[u8],
    round: u8,
) -> Result<Vec<u8>, AllocError>
    requires { round ≤ MOST_ROUNDS }
    ensures { IfOk result (λ text. text.items ≡ date_in utf8 dates.now round) }
{
    let line = Line::new(alloc, dates, utf8)?;
    let behind = 10 * usize::from(round);
    plain(
        alloc,
        utf8,
        without_blanks(line.text(82 + behind, 89 + behind)),
    )
}
