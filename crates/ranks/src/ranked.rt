// The canonical text of a report with the players' places.
ghost use Rattle.std.specs.Prelude.{◌≡◌, IfOk};
ghost use Rattle.trf16_report.specs.Prelude.{renumbered, written};
ghost use Rattle.ranks.specs.Ranks.{with_ranks};

use crate::placing::rank_texts;
use crate::texts::with_texts;
use std::alloc::{AllocError, Global};
use tables::{Key, rows_of};
use trf16_report::{Counted, Failed, Report};
use trf16_writer::{renumbered_players_alone, renumbered_text, write};

// The canonical text of a report.
fn text_of(alloc: Global, report: &Report<'_>) -> Result<Vec<u8>, AllocError>
    ensures { IfOk result (λ text. text.items ≡ written report.now) }
{
    let mut text = Counted::new(Vec::new(alloc));
    match write(report, &mut text) {
        Ok(()) => Ok(text.into_inner()),
        Err(Failed) => Err(AllocError),
    }
}

/// The canonical text of a report, in which columns 86 to 89 of each player's line hold their place in the standings by
/// some keys, right in four columns, and column 85 is blank.
///
/// # Errors
/// Memory was refused.
pub fn ranked_text(alloc: Global, report: &Report<'_>, keys: &[Key]) -> Result<Vec<u8>, AllocError>
    ensures { IfOk result (λ text. text.items ≡ written (with_ranks keys.now report.now)) }
{
    let rows = rows_of(alloc, report, keys)?;
    let texts = rank_texts(alloc, report, rows.rows())?;
    text_of(alloc, &with_texts(alloc, report, &texts)?)
}

/// The canonical text of the report with new start ranks, with the players' places in columns 86 to 89: those in its
/// own standings.
///
/// # Errors
/// Memory was refused.
pub fn renumbered_ranked_text(
    alloc: Global,
    report: &Report<'_>,
    keys: &[Key],
) -> Result<Vec<u8>, AllocError>
    ensures { IfOk result (λ text. text.items ≡ written (with_ranks keys.now (renumbered report.now))) }
{
    let alone = renumbered_players_alone(alloc, report)?;
    let rows = rows_of(alloc, &alone, keys)?;
    let texts = rank_texts(alloc, &alone, rows.rows())?;
    renumbered_text(alloc, &with_texts(alloc, report, &texts)?)
}
