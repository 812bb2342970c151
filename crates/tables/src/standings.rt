// The standings of a report.
ghost use Rattle.std.specs.Prelude.{◌≡◌, [], map, IfOk};
ghost use Rattle.tables.specs.Outcomes.{Gives};
ghost use Rattle.tables.specs.Standings.{row_of, with_key, with_keys, IsRanked, rows_of, standings_of};

use crate::fault::TieFault;
use crate::key::Key;
use crate::keys::{SoFar, value_of};
use crate::ranking::all_in_order;
use crate::refusals::has_standings;
use crate::row::Row;
use std::alloc::{AllocError, Global};
use std::marker::Model;
use trf16_report::Report;

/// All players of a report in order: higher score first, then the higher value in the first key in which two differ,
/// then the smaller start rank.
#[derive(Drop)]
pub struct Standings {
    rows: Vec<Row>,
}

impl Model for Standings {
    ghost use Rattle.std.specs.Prelude.{List};
    ghost use Rattle.tables.specs.Keys.{RowFacts};
    ghost use Rattle.tables.specs.Standings.{IsRanked};

    ghost Value = { List RowFacts };

    ghost view = { λ s. s.rows.items };

    ghost invariant = { λ s. IsRanked s.rows.items };
}

impl Standings {
    /// The rows, from the first place on.
    pub fn rows(&self) -> &[Row]
        ensures value { result.now ≡ self.now }
        ensures order { IsRanked result.now }
    {
        &self.rows
    }
}

// The rows of all players before any key, in the order of their lines.
fn first_rows(alloc: Global, report: &Report<'_>) -> Result<Vec<Row>, AllocError>
    ensures { IfOk result (λ v. v.items ≡ map (row_of report.now) report.now.players) }
{
    let mut rows = Vec::new(alloc);
    for player in report.players() {
        let score = report.points(player.start, report.rounds_played());
        rows.push(Row::new(alloc, player.start, score))?;
    }
    Ok(rows)
}

// The rows with the values of one more key.
fn with_key(
    alloc: Global,
    report: &Report<'_>,
    key: Key,
    rows: &[Row],
) -> Result<Vec<Row>, AllocError>
    ensures { IfOk result (λ v. v.items ≡ with_key report.now key rows.now) }
{
    let mut longer = Vec::new(alloc);
    for row in rows {
        let value = value_of(alloc, SoFar { report, rows }, key, row)?;
        longer.push(row.with_value(alloc, value)?)?;
    }
    Ok(longer)
}

// The rows of all players with the values of all keys.
fn with_keys(alloc: Global, report: &Report<'_>, keys: &[Key]) -> Result<Vec<Row>, AllocError>
    ensures { IfOk result (λ v. v.items ≡ with_keys report.now keys.now (map (row_of report.now) report.now.players)) }
{
    let mut rows = first_rows(alloc, report)?;
    for key in keys {
        rows = with_key(alloc, report, *key, &rows)?;
    }
    Ok(rows)
}

/// The standings of a report over the rounds that were paired, with the keys that break ties, in their order. A key may
/// be named twice, and there may be none. If there are no standings, the reason is the first of these: a game without a
/// result (by the players' lines, then by round), the first line `XXS`, memory.
#[tactic(auto, unfolding(crate::specs::Standings::standings_of))]
pub fn table(alloc: Global, report: &Report<'_>, keys: &[Key]) -> Result<Standings, TieFault>
    ensures { Gives result (standings_of report.now keys.now) }
{
    has_standings(report)?;
    Ok(rows_of(alloc, report, keys)?)
}

/// The rows of the standings, whether or not the report has any: a game without a result gives no points and counts as
/// a round without a game, and a line `XXS` changes nothing.
///
/// # Errors
/// Memory was refused.
pub fn rows_of(alloc: Global, report: &Report<'_>, keys: &[Key]) -> Result<Standings, AllocError>
    ensures { IfOk result (λ standings. standings ≡ rows_of report.now keys.now) }
{
    let rows = with_keys(alloc, report, keys)?;
    let rows = all_in_order(alloc, rows)?;
    Ok(Standings { rows })
}
