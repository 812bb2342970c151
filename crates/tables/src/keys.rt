// The values of the tie-break keys.
ghost use Rattle.std.specs.Prelude.{◌≡◌, ◌≤◌, ◌||◌, ◌==◌, IfOk};
ghost use Rattle.std.specs.List.{list_all};
ghost use Rattle.tables.specs.Games.{have_met};
ghost use Rattle.tables.specs.Keys.{buchholz, sonneborn_berger, group_of, have_all_met, is_against, points_against};
ghost use Rattle.tables.specs.Keys.{points_among, direct_in, value_of};

use crate::games::{have_met, opponent_score};
use crate::key::Key;
use crate::row::Row;
use std::alloc::{AllocError, Global};
use trf16_report::{Cell, Report};

#[tactic(auto, using(crate::proofs::RoundLemmas::next))]
fn buchholz(report: &Report<'_>, start: u16) -> u32
    ensures { result ≡ buchholz report.now start }
{
    let rounds = report.rounds_played();
    let mut sum = 0;
    for before in 0..rounds {
        sum += opponent_score(report, start, before + 1);
    }
    sum
}

#[tactic(auto, using(crate::proofs::RoundLemmas::next))]
fn sonneborn_berger(report: &Report<'_>, start: u16) -> u32
    ensures { result ≡ sonneborn_berger report.now start }
{
    let rounds = report.rounds_played();
    let mut sum = 0;
    for before in 0..rounds {
        let got = report.cell(start, before + 1).half_points(report.bye());
        sum += opponent_score(report, start, before + 1) * u32::from(got);
    }
    sum
}

// The start ranks of those who are level with a row, its own among them.
fn group_of(alloc: Global, rows: &[Row], row: &Row) -> Result<Vec<u16>, AllocError>
    ensures { IfOk result (λ v. v.items ≡ group_of rows.now row.now) }
{
    rows.iter()
        .filter(|other| row.score() == other.score() && row.values() == other.values())
        .map(|other| other.start())
        .collect(alloc)
}

fn has_met_all(report: &Report<'_>, start: u16, group: &[u16]) -> bool
    ensures { result ≡ list_all (λ other. (start == other) || have_met report.now start other) group.now }
{
    group
        .iter()
        .all(|other| start == *other || have_met(report, start, *other))
}

fn have_all_met(report: &Report<'_>, group: &[u16]) -> bool
    ensures { result ≡ have_all_met report.now group.now }
{
    group.iter().all(|start| has_met_all(report, *start, group))
}

fn is_against(group: &[u16], cell: &Cell) -> bool
    ensures { result ≡ is_against group.now cell.now }
{
    match cell {
        Cell::Game { opponent, .. } => group.contains(opponent),
        _ => false,
    }
}

fn points_against(group: &[u16], cell: &Cell) -> u16
    ensures value { result ≡ points_against group.now cell.now }
    ensures few { result ≤ 2 }
{
    if is_against(group, cell) {
        cell.game_points()
    } else {
        0
    }
}

#[tactic(auto, using(crate::proofs::RoundLemmas::next))]
fn points_among(report: &Report<'_>, group: &[u16], start: u16) -> u32
    ensures { result ≡ points_among report.now group.now start }
{
    let rounds = report.rounds_played();
    let mut sum = 0;
    for before in 0..rounds {
        sum += u32::from(points_against(group, &report.cell(start, before + 1)));
    }
    sum
}

fn direct_in(report: &Report<'_>, group: &[u16], start: u16) -> Option<u32>
    ensures { result ≡ direct_in report.now group.now start }
{
    if 1 < group.len() && have_all_met(report, group) {
        return Some(points_among(report, group, start));
    }
    None
}

/// The rows with the values of the keys so far, and the report that they come from.
#[derive(Clone, Copy, Drop)]
pub(crate) struct SoFar<'r, 't> {
    pub(crate) report: &'r Report<'t>,
    pub(crate) rows: &'r [Row],
}

/// The value of the next key for a row.
pub(crate) fn value_of(
    alloc: Global,
    so_far: SoFar<'_, '_>,
    key: Key,
    row: &Row,
) -> Result<Option<u32>, AllocError>
    ensures { IfOk result (λ value. value ≡ value_of so_far.entry.report.now so_far.entry.rows.now key row.now) }
{
    let report = so_far.report;
    match key {
        Key::Direct => {
            let group = group_of(alloc, so_far.rows, row)?;
            Ok(direct_in(report, &group, row.start()))
        }
        Key::Buchholz => Ok(Some(buchholz(report, row.start()))),
        Key::SonnebornBerger => Ok(Some(sonneborn_berger(report, row.start()))),
    }
}
