// The command `standings`: the players by score and by the keys that break ties.
ghost use Rattle.std.specs.Prelude.{◌≡◌, ◌++◌, ◌≤◌, ◌<◌, IfOk, Ok, OnOk, codes};
ghost use Rattle.trf16_report.specs.Prelude.{verdict};
ghost use Rattle.replies.specs.Replies.{answer_of};
ghost use Rattle.replies.specs.StandingsAnswers.{rounds_shown, standings_answer, table_answer};
ghost use Rattle.replies.specs.StandingsTexts.{row_text, rows_text, values_text};
ghost use Rattle.common_texts.specs.KeyTexts.{value_text};
ghost use Rattle.replies.specs.Views.{seen_before};

use crate::games::{put_games, rounds_shown};
use crate::refusal::has_no_standings;
use crate::reply::{Reply, Status};
use crate::views::{not_seen, read_before};
use crate::wall;
use common_texts::{HalfPoints, KeyValue, Page};
use requests::StandingsOptions;
use std::alloc::{AllocError, Global};
use tables::{Key, Row, TieFault};
use trf16_report::Report;

/// What `standings` says of the bytes of a report in which the pairing-allocated bye gives `bye` half points.
pub fn standings(
    alloc: Global,
    options: &StandingsOptions,
    bytes: &[u8],
    bye: u16,
) -> Result<Reply, AllocError>
    requires { bye ≤ 2 }
    ensures { IfOk result (λ reply. answer_of reply
        ≡ standings_answer options.now (seen_before options.now.round (verdict bytes.now bye))) }
{
    match read_before(alloc, bytes, bye, options.round)? {
        Ok(report) => of_report(alloc, options, &report),
        Err(why) => not_seen(alloc, why),
    }
}

// What `standings` says of an accepted report.
fn of_report(
    alloc: Global,
    options: &StandingsOptions,
    report: &Report<'_>,
) -> Result<Reply, AllocError>
    ensures { IfOk result (λ reply. answer_of reply ≡ standings_answer options.now (Ok report.now)) }
{
    match tables::table(alloc, report, options.keys.as_slice()) {
        Ok(table) => of_rows(alloc, options, report, table.rows()),
        Err(TieFault::OutOfMemory) => Err(AllocError),
        Err(fault) => has_no_standings(alloc, fault),
    }
}

// The lines of all players, with or without names.
fn of_rows(
    alloc: Global,
    options: &StandingsOptions,
    report: &Report<'_>,
    rows: &[Row],
) -> Result<Reply, AllocError>
    ensures { IfOk result (λ reply. answer_of reply ≡ table_answer options.now report.now (Ok rows.now)) }
{
    if options.names {
        return wall::standings(alloc, options, report, rows);
    }
    let mut text = Page::new(alloc);
    put_rows(&mut text, options, report, rows)?;
    Ok(Reply::of_page(Status::Done, text))
}

// Puts the lines of all players without names.
fn put_rows(
    text: &mut Page,
    options: &StandingsOptions,
    report: &Report<'_>,
    rows: &[Row],
) -> Result<(), AllocError>
    ensures { OnOk result (text.new ≡ text.old
        ++ rows_text report.now options.now.keys (rounds_shown options.now report.now) 1 rows.now) }
{
    let (keys, rounds) = (options.keys.as_slice(), rounds_shown(options, report));
    for (i, row) in rows.iter().enumerate() {
        put_row(text, keys, i + 1, row)?;
        put_games(text, report, row.start(), rounds)?;
        text.push_str("\n")?;
    }
    Ok(())
}

// Puts a player: place, start rank, score and the values of the keys.
#[tactic(auto, unfolding(crate::specs::StandingsTexts::row_text))]
fn put_row(text: &mut Page, keys: &[Key], place: usize, row: &Row) -> Result<(), AllocError>
    ensures { OnOk result (text.new ≡ text.old ++ row_text keys.now place row.now) }
{
    let (start, score) = (row.start(), HalfPoints(u32::from(row.score())));
    write!(text, "{place} {start} {score}")?;
    put_values(text, keys, row.values())
}

// Puts the value of a key behind a blank.
fn put_value(text: &mut Page, key: Key, value: Option<u32>) -> Result<(), AllocError>
    ensures { OnOk result (text.new ≡ text.old ++ (codes " " ++ value_text key value)) }
{
    let shown = KeyValue { key, value };
    write!(text, " {shown}")
}

// Puts the values of some keys, in their order.
#[tactic(auto, using(crate::proofs::TableLemmas::values_end))]
fn put_values(text: &mut Page, keys: &[Key], values: &[Option<u32>]) -> Result<(), AllocError>
    ensures { OnOk result (text.new ≡ text.old ++ values_text keys.now values.now) }
{
    for (i, key) in keys.iter().enumerate() {
        if values.len() <= i {
            return Ok(());
        }
        put_value(text, *key, values[i])?;
    }
    Ok(())
}
