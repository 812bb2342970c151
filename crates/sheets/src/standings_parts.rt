// The section of the standings.
ghost use Rattle.std.specs.Prelude.{◌≡◌, ◌++◌, ◌<◌, IfOk, OnOk, string_bytes};
ghost use Rattle.common_texts.specs.Prelude.{value_text};
ghost use Rattle.std.specs.Fmt.{decimal};
ghost use Rattle.markup.specs.Prelude.{node_text};
ghost use Rattle.sheets.specs.Parts.{cell, column_head, each, each_up};
ghost use Rattle.sheets.specs.StandingsParts as parts;
ghost use Rattle.tables.specs.Prelude.{standings_of};

use crate::parts;
use crate::persons::person_in;
use crate::rounds::{put_points, round_name};
use common_texts::{KeyValue, RoundOf};
use markup::{Markup, Tag};
use std::alloc::{AllocError, Global};
use tables::{Key, Row, TieFault, table};
use trf16_report::{Report, cell_at, is_unfinished};
use trf16_writer::before_round;

// True if a game of a round has no result yet.
fn is_open(report: &Report<'_>, round: u8) -> bool
    requires { 0 < round }
    ensures { result ≡ parts.is_open report.now round }
{
    for player in report.players() {
        if is_unfinished(&cell_at(&player.cells, round)) {
            return true;
        }
    }
    false
}

// The round that the standings stand before: the first with a game without a result, else the one behind the last that
// was paired.
#[tactic(auto, using(crate::proofs::PartLemmas::open_more))]
fn standings_round(report: &Report<'_>) -> u8
    ensures { result ≡ parts.standings_round report.now }
{
    let rounds = report.rounds_played();
    for past in 0..rounds {
        if is_open(report, past + 1) {
            return past + 1;
        }
    }
    rounds + 1
}

// The name of a key.
fn key_name(key: Key) -> &'static str
    ensures { result.now ≡ parts.key_name key }
{
    match key {
        Key::Direct => "Direct encounter",
        Key::Buchholz => "Buchholz",
        Key::SonnebornBerger => "Sonneborn-Berger",
    }
}

// Puts the values of some keys, in their order.
#[tactic(auto, using(crate::proofs::PartLemmas::values_end))]
fn put_values(page: &mut Markup, keys: &[Key], values: &[Option<u32>]) -> Result<(), AllocError>
    ensures { OnOk result (page.new ≡ page.old ++ node_text (parts.value_cells keys.now values.now)) }
{
    for (i, key) in keys.iter().enumerate() {
        if values.len() <= i {
            return Ok(());
        }
        put_value(page, *key, values[i])?;
    }
    Ok(())
}

// Puts the value of a key.
fn put_value(page: &mut Markup, key: Key, value: Option<u32>) -> Result<(), AllocError>
    ensures { OnOk result (page.new ≡ page.old ++ node_text (cell (value_text key value))) }
{
    let text = KeyValue { key, value }.to_string(page.allocator())?;
    parts::put_cell(page, text.as_bytes())
}

// Puts what a player's cell of a round says, which leads to the round.
#[tactic(auto, unfolding(crate::specs::StandingsParts::game_cell))]
fn put_game(page: &mut Markup, report: &Report<'_>, start: u16, round: u8) -> Result<(), AllocError>
    requires { 0 < round }
    ensures { OnOk result (page.new ≡ page.old ++ node_text (parts.game_cell report.now start round)) }
{
    let alloc = page.allocator();
    let name = round_name(alloc, round)?;
    let game = RoundOf(report.cell(start, round)).to_string(alloc)?;
    page.start(Tag::Cell, &[])?;
    parts::put_link(page, name.as_str(), game.as_bytes())?;
    page.end(Tag::Cell)
}

// Puts the games of a player in all rounds that were paired.
#[tactic(auto, unfolding(crate::specs::StandingsParts::game_cells))]
fn put_games(page: &mut Markup, report: &Report<'_>, start: u16) -> Result<(), AllocError>
    ensures { OnOk result (page.new ≡ page.old ++ node_text (parts.game_cells report.now start)) }
{
    let rounds = report.rounds_played();
    for round in 0..rounds {
        put_game(page, report, start, round + 1)?;
    }
    Ok(())
}

// Puts start rank, name and score of a player.
#[tactic(auto, unfolding(crate::specs::StandingsParts::scored_cells))]
fn put_scored_cells(page: &mut Markup, report: &Report<'_>, row: &Row) -> Result<(), AllocError>
    ensures { OnOk result (page.new ≡ page.old ++ node_text (parts.scored_cells report.now row.now)) }
{
    let person = person_in(page.allocator(), report, row.start())?;
    parts::put_number(page, usize::from(row.start()))?;
    parts::put_name_cell(page, &person)?;
    put_points(page, row.score())
}

// Puts a player of the standings behind their place.
#[tactic(auto, unfolding(crate::specs::StandingsParts::standings_row))]
fn put_row(
    page: &mut Markup,
    report: &Report<'_>,
    keys: &[Key],
    placed: (usize, &Row),
) -> Result<(), AllocError>
    ensures { OnOk result (page.new
        ≡ page.old ++ node_text (parts.standings_row report.now keys.now placed.entry.0 placed.entry.1.now)) }
{
    let (place, row) = placed;
    let text = place.to_string(page.allocator())?;
    parts::start_row(page, text.as_bytes())?;
    put_scored_cells(page, report, row)?;
    put_values(page, keys, row.values())?;
    put_games(page, report, row.start())?;
    page.end(Tag::Row)
}

// Puts the rows of the standings.
fn put_rows(
    page: &mut Markup,
    report: &Report<'_>,
    keys: &[Key],
    rows: &[Row],
) -> Result<(), AllocError>
    ensures { OnOk result (page.new ≡ page.old ++ node_text (parts.standings_rows report.now keys.now rows.now)) }
{
    for (i, row) in rows.iter().enumerate() {
        put_row(page, report, keys, (i + 1, row))?;
    }
    Ok(())
}

// Puts the heads of some keys.
fn put_key_heads(page: &mut Markup, keys: &[Key]) -> Result<(), AllocError>
    ensures { OnOk result (page.new ≡ page.old ++ node_text (each (λ key. column_head (parts.key_name key)) keys.now)) }
{
    for key in keys {
        parts::put_column_head(page, key_name(*key).as_bytes())?;
    }
    Ok(())
}

// Puts the heads of so many rounds.
fn put_round_heads(page: &mut Markup, rounds: u8) -> Result<(), AllocError>
    ensures { OnOk result (page.new ≡ page.old ++ node_text (each_up (λ round. column_head (decimal round)) rounds)) }
{
    for past in 0..rounds {
        let text = (past + 1).to_string(page.allocator())?;
        parts::put_column_head(page, text.as_bytes())?;
    }
    Ok(())
}

// Puts the heads of the columns in front of the keys.
fn put_front_heads(page: &mut Markup) -> Result<(), AllocError>
    ensures { OnOk result (page.new ≡ page.old ++ node_text (each column_head parts.standings_heads)) }
{
    parts::put_column_heads(page, &["Place", "No.", "Name", "Pts"])
}

// Puts the heads of all columns.
#[tactic(auto, unfolding(crate::specs::StandingsParts::all_heads))]
fn put_heads(page: &mut Markup, keys: &[Key], rounds: u8) -> Result<(), AllocError>
    ensures { OnOk result (page.new ≡ page.old ++ node_text (parts.all_heads keys.now rounds)) }
{
    put_front_heads(page)?;
    put_key_heads(page, keys)?;
    put_round_heads(page, rounds)
}

// The caption.
#[tactic(auto, unfolding(crate::specs::StandingsParts::standings_caption))]
fn caption() -> &'static str
    ensures { result.now ≡ parts.standings_caption }
{
    "The games of each round: the number of the opponent, the colour, and the result"
}

// Puts the table of the standings.
#[tactic(auto, unfolding(crate::specs::StandingsParts::full_table), using(crate::proofs::PartLemmas::table_put))]
fn put_full_table(
    page: &mut Markup,
    report: &Report<'_>,
    keys: &[Key],
    rows: &[Row],
) -> Result<(), AllocError>
    ensures { OnOk result (page.new ≡ page.old ++ node_text (parts.full_table report.now keys.now rows.now)) }
{
    parts::start_table(page, caption())?;
    put_heads(page, keys, report.rounds_played())?;
    parts::start_rows(page)?;
    put_rows(page, report, keys, rows)?;
    parts::end_table(page)
}

// Puts that there are no standings.
#[tactic(auto, unfolding(crate::specs::StandingsParts::no_standings))]
fn put_none(page: &mut Markup) -> Result<(), AllocError>
    ensures { OnOk result (page.new ≡ page.old ++ node_text parts.no_standings) }
{
    page.element(
        Tag::Paragraph,
        &[],
        b"No standings can be made from this report.",
    )
}

// Puts the standings of a report, or that there are none.
fn put_table(page: &mut Markup, report: &Report<'_>, keys: &[Key]) -> Result<(), AllocError>
    ensures { OnOk result (page.new
        ≡ page.old ++ node_text (parts.rows_table report.now keys.now (standings_of report.now keys.now))) }
{
    match table(page.allocator(), report, keys) {
        Ok(standings) => put_full_table(page, report, keys, standings.rows()),
        Err(TieFault::OutOfMemory) => Err(AllocError),
        Err(_) => put_none(page),
    }
}

// Puts the same of a report that there may not be.
fn put_counted(
    page: &mut Markup,
    counted: Option<Report<'_>>,
    keys: &[Key],
) -> Result<(), AllocError>
    ensures { OnOk result (page.new ≡ page.old ++ node_text (parts.standings_table keys.now counted.entry)) }
{
    match counted {
        Some(report) => put_table(page, &report, keys),
        None => put_none(page),
    }
}

// The heading of the standings before a round, if so many rounds were paired.
#[tactic(auto, unfolding(crate::specs::StandingsParts::standings_heading))]
fn heading(alloc: Global, round: u8, rounds: u8) -> Result<String, AllocError>
    ensures { IfOk result (λ text. string_bytes text ≡ parts.standings_heading round rounds) }
{
    if round <= rounds || rounds == 0 {
        format!(in alloc; "Standings before round {round}")
    } else {
        format!(in alloc; "Standings after round {rounds}")
    }
}

/// Puts the standings of the report as it stood before the first round with a game without a result.
#[tactic(auto, unfolding(crate::specs::StandingsParts::standings_section, crate::specs::Parts::section))]
pub(crate) fn put_standings(
    page: &mut Markup,
    report: &Report<'_>,
    keys: &[Key],
) -> Result<(), AllocError>
    ensures { OnOk result (page.new ≡ page.old ++ node_text (parts.standings_section report.now keys.now)) }
{
    let alloc = page.allocator();
    let round = standings_round(report);
    let heading = heading(alloc, round, report.rounds_played())?;
    let counted = before_round(alloc, report, round)?;
    parts::start_section(page, "standings", heading.as_bytes())?;
    put_counted(page, counted, keys)?;
    page.end(Tag::Section)
}
