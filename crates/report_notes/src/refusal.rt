// What stands where a report is refused: what the columns hold that a refusal is about, and the sums that a points
// field was compared with.
ghost use Rattle.std.specs.Prelude.{◌≡◌, ◌≤◌, Err};
ghost use Rattle.std.specs.Str.{is_utf8};
ghost use Rattle.trf16_report.specs.Prelude.{columns, text, without_marks};
ghost use Rattle.trf16_report.specs.declared.limits.TheConstants.{LAST_COLUMN};
ghost use Rattle.report_notes.specs.RefusalNotes.{are_lines_read, columns_around, columns_of, line_in, line_of};
ghost use Rattle.report_notes.specs.RefusalNotes.{number_columns, sums_among, text_at};

use crate::fields::start_in;
use std::str;
use trf16_report::{
    Excess, Fault, LAST_COLUMN, MOST_ROUNDS, Report, front, next_line, skip_marks, split_columns,
};

/// Columns of a line, `first` to `last`. Lines and columns count from 1.
#[derive(Clone, Copy)]
pub struct Columns {
    pub line: usize,
    pub first: usize,
    pub last: usize,
}

/// A points field and the sums that it was compared with, in half points: over the rounds that were paired, and over
/// all rounds.
#[derive(Clone, Copy)]
pub struct Sums {
    pub player: u16,
    pub field: u16,
    pub paired: u16,
    pub all: u16,
}

// A column that must be blank, with what it stands between.
fn columns_around(line: usize, column: usize) -> Columns
    requires { column ≤ LAST_COLUMN }
    ensures { result ≡ columns_around line column }
{
    if column < 9 {
        return Columns {
            line,
            first: 1,
            last: 8,
        };
    }
    if column < 92 {
        return Columns {
            line,
            first: 81,
            last: 91,
        };
    }
    let further = 10 * ((column - 92) / 10);
    Columns {
        line,
        first: 92 + further,
        last: 101 + further,
    }
}

// The number field that is at fault in a player's line: the start rank, or the points if one stands there.
fn number_columns(bytes: &[u8], line: usize) -> Columns
    ensures { result ≡ number_columns bytes.now line }
{
    if start_in(line_in(bytes, line), has_characters(bytes)) == 0 {
        Columns {
            line,
            first: 5,
            last: 8,
        }
    } else {
        Columns {
            line,
            first: 81,
            last: 84,
        }
    }
}

/// The columns that a refusal is about: a bad number; opponent, colour and result of a bad cell; or a column that must
/// be blank with what it stands between.
pub fn columns_of(fault: Fault, bytes: &[u8]) -> Option<Columns>
    ensures { result ≡ columns_of fault bytes.now }
{
    match fault {
        Fault::BadNumber { line } => Some(number_columns(bytes, line)),
        Fault::BadCell { line, round } if round <= MOST_ROUNDS => Some(Columns {
            line,
            first: 82 + 10 * round,
            last: 89 + 10 * round,
        }),
        Fault::Misaligned { line, column } if column <= LAST_COLUMN => {
            Some(columns_around(line, column))
        }
        _ => None,
    }
}

/// Yes if a text is UTF-8: then a column of it is a character. Otherwise a column is a byte.
pub fn has_characters(bytes: &[u8]) -> bool
    ensures { result ≡ is_utf8 (without_marks bytes.now) }
{
    str::from_utf8(skip_marks(bytes)).is_ok()
}

/// The line of a number, from 1; empty behind the last line. The time grows with the text.
pub fn line_in(bytes: &[u8], n: usize) -> &[u8]
    ensures { result.now ≡ line_in bytes.now n }
{
    let mut rest = skip_marks(bytes);
    let mut before = n.saturating_sub(1);
    while !rest.is_empty() {
        let (line, after) = next_line(rest);
        if before == 0 {
            return line;
        }
        before -= 1;
        rest = after;
    }
    &[]
}

/// The columns `first` to `last` of a line.
pub(crate) fn columns_in(line: &[u8], utf8: bool, first: usize, last: usize) -> &[u8]
    ensures { result.now ≡ text (columns utf8 line.now) first last }
{
    let before = first.saturating_sub(1);
    let (_, rest) = split_columns(line, utf8, before);
    split_columns(rest, utf8, last.saturating_sub(before)).0
}

/// What some columns of a text hold; columns behind the line's end are missing.
pub fn text_at(bytes: &[u8], place: Columns) -> &[u8]
    ensures { result.now ≡ text_at bytes.now place }
{
    let Columns { line, first, last } = place;
    columns_in(line_in(bytes, line), has_characters(bytes), first, last)
}

/// The line whose columns are at fault.
pub fn line_of(fault: Fault) -> Option<usize>
    ensures { result ≡ line_of fault }
{
    match fault {
        Fault::BadNumber { line } | Fault::Misaligned { line, .. } | Fault::BadCell { line, .. } =>
            Some(line),
        _ => None,
    }
}

/// Yes if each line of a refused text was read: it has not too many bytes, and no rule on a line is broken.
pub fn are_lines_read(fault: Fault) -> bool
    ensures { result ≡ are_lines_read (Err fault) }
{
    match fault {
        Fault::TooMany(Excess::Bytes)
        | Fault::BadNumber { .. }
        | Fault::Duplicate { .. }
        | Fault::Misaligned { .. }
        | Fault::BadCell { .. }
        | Fault::BadExtension { .. } => false,
        _ => true,
    }
}

/// The points field of the player with a start rank, and the sums that it is compared with; none if the field is blank,
/// or if no player has the start rank.
pub fn sums_of(report: &Report<'_>, start: u16) -> Option<Sums>
    ensures { result ≡ sums_among report.now report.now.players start }
{
    let player = report.player(start)?;
    let field = player.points?;
    let paired = front(&player.cells, report.rounds_played());
    Some(Sums {
        player: player.start,
        field,
        paired: report.points_over(paired),
        all: report.points_over(&player.cells),
    })
}
