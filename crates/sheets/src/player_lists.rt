// The section of the players.
ghost use Rattle.std.specs.Prelude.{◌≡◌, ◌++◌, OnOk};
ghost use Rattle.markup.specs.Prelude.{node_text};
ghost use Rattle.sheets.specs.Parts.{column_head, each};
ghost use Rattle.sheets.specs.PlayerLists.{person_behind, person_row, player_heads, player_rows, players_caption, players_section};
ghost use Rattle.sheets.specs.PlayerLists.{players_table};

use crate::orders::by_start;
use crate::parts::{
    end_table, put_cell, put_column_heads, start_row, start_rows, start_section, start_table,
};
use crate::persons::{Person, person_in};
use markup::{Markup, Tag};
use std::alloc::AllocError;
use trf16_report::Report;

// Puts federation, rating and year of birth of a player.
#[tactic(auto, unfolding(crate::specs::PlayerLists::person_behind))]
fn put_behind(page: &mut Markup, person: &Person) -> Result<(), AllocError>
    ensures { OnOk result (page.new ≡ page.old ++ node_text (person_behind person.now)) }
{
    put_cell(page, person.federation.as_slice())?;
    put_cell(page, person.rating.as_slice())?;
    put_cell(page, person.born.as_slice())
}

// Puts a player: start rank, title, name, federation, rating and year of birth.
#[tactic(auto, unfolding(crate::specs::PlayerLists::person_row))]
fn put_person(page: &mut Markup, start: u16, person: &Person) -> Result<(), AllocError>
    ensures { OnOk result (page.new ≡ page.old ++ node_text (person_row start person.now)) }
{
    let text = start.to_string(page.allocator())?;
    start_row(page, text.as_bytes())?;
    put_cell(page, person.title.as_slice())?;
    put_cell(page, person.name.as_slice())?;
    put_behind(page, person)?;
    page.end(Tag::Row)
}

// Puts the rows of some players.
fn put_persons(page: &mut Markup, report: &Report<'_>, starts: &[u16]) -> Result<(), AllocError>
    ensures { OnOk result (page.new ≡ page.old ++ node_text (player_rows report.now starts.now)) }
{
    for start in starts {
        let person = person_in(page.allocator(), report, *start)?;
        put_person(page, *start, &person)?;
    }
    Ok(())
}

// Puts the heads of the columns.
fn put_heads(page: &mut Markup) -> Result<(), AllocError>
    ensures { OnOk result (page.new ≡ page.old ++ node_text (each column_head player_heads)) }
{
    let labels = ["No.", "Title", "Name", "Federation", "Rating", "Born"];
    put_column_heads(page, &labels)
}

// The caption.
#[tactic(auto, unfolding(crate::specs::PlayerLists::players_caption))]
fn caption() -> &'static str
    ensures { result.now ≡ players_caption }
{
    "All players by start rank"
}

// Puts the table of some players.
#[tactic(auto, unfolding(crate::specs::PlayerLists::players_table), using(crate::proofs::PartLemmas::table_put))]
fn put_table(page: &mut Markup, report: &Report<'_>, starts: &[u16]) -> Result<(), AllocError>
    ensures { OnOk result (page.new ≡ page.old ++ node_text (players_table report.now starts.now)) }
{
    start_table(page, caption())?;
    put_heads(page)?;
    start_rows(page)?;
    put_persons(page, report, starts)?;
    end_table(page)
}

/// Puts the players by start rank.
#[tactic(auto, unfolding(crate::specs::PlayerLists::players_section, crate::specs::Parts::section))]
pub(crate) fn put_players(page: &mut Markup, report: &Report<'_>) -> Result<(), AllocError>
    ensures { OnOk result (page.new ≡ page.old ++ node_text (players_section report.now)) }
{
    let starts = by_start(page.allocator(), report)?;
    start_section(page, "players", b"Players")?;
    put_table(page, report, &starts)?;
    page.end(Tag::Section)
}
