// The places of players among the rows of a table, and how they stand in the rank columns.
ghost use Rattle.std.specs.Prelude.{◌≡◌, ◌++◌, IfOk, OnOk, map};
ghost use Rattle.trf16_report.specs.Prelude.{blanks};
ghost use Rattle.ranks.specs.Ranks.{place_in, rank_text};

use std::alloc::{AllocError, Global};
use tables::Row;
use trf16_report::Report;

// The place of a player among some rows, from 1; behind the last row if none of them is theirs.
fn place_in(rows: &[Row], start: u16) -> usize
    ensures { result ≡ place_in rows.now start }
{
    for (i, row) in rows.iter().enumerate() {
        if row.start() == start {
            return i + 1;
        }
    }
    rows.len() + 1
}

// Puts some blanks.
fn put_blanks(text: &mut Vec<u8>, count: usize) -> Result<(), AllocError>
    ensures { OnOk result (text.new.items ≡ text.old.items ++ blanks count) }
{
    for _ in 0..count {
        text.push(b' ')?;
    }
    Ok(())
}

// A place in the columns 85 to 89: a blank, and the place right in four columns.
fn rank_text(alloc: Global, place: usize) -> Result<Vec<u8>, AllocError>
    ensures { IfOk result (λ text. text.items ≡ rank_text place) }
{
    let digits = format!(in alloc; "{place}")?;
    let mut text = Vec::new(alloc);
    text.push(b' ')?;
    put_blanks(&mut text, 4usize.saturating_sub(digits.len()))?;
    text.extend_from_slice(digits.as_bytes())?;
    Ok(text)
}

/// What stands in the columns 85 to 89 of each player of a report, in the order of their lines: the place of their row
/// among some rows.
///
/// # Errors
/// Memory was refused.
pub(crate) fn rank_texts(
    alloc: Global,
    report: &Report<'_>,
    rows: &[Row],
) -> Result<Vec<Vec<u8>>, AllocError>
    ensures { IfOk result (λ texts. map (λ text. text.items) texts.items
        ≡ map (λ entry. rank_text (place_in rows.now entry.start)) report.now.players) }
{
    let mut texts = Vec::new(alloc);
    for player in report.players() {
        texts.push(rank_text(alloc, place_in(rows, player.start))?)?;
    }
    Ok(texts)
}
