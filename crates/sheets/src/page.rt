// The page of a tournament.
ghost use Rattle.std.specs.Prelude.{◌≡◌, ◌++◌, IfOk, OnOk, codes, string_bytes};
ghost use Rattle.markup.specs.Prelude.{node_text};
ghost use Rattle.sheets.specs.Pages as pages;
ghost use Rattle.sheets.specs.HeadLines.{head_text};
ghost use Rattle.sheets.specs.Parts.{each_down, fact};

use crate::head_lines::{first_line, head_text};
use crate::name_lists::put_names_of;
use crate::parts::{put_fact, put_item};
use crate::player_lists::put_players;
use crate::rounds::{put_round, round_name, round_words};
use crate::standings_parts::put_standings;
use crate::style::STYLE;
use crate::texts::joined_by;
use markup::{Attribute, AttributeName, Markup, Tag};
use std::alloc::{AllocError, Global};
use tables::Key;
use trf16_report::Report;

// A title, or a word of its own if there is none.
fn title_or(alloc: Global, said: Vec<u8>) -> Result<Vec<u8>, AllocError>
    ensures { IfOk result (λ title. title.items ≡ pages.title_or said.items) }
{
    if said.is_empty() {
        return Vec::from_slice(alloc, b"Tournament");
    }
    Ok(said)
}

// The title of the event.
fn event_title(alloc: Global, report: &Report<'_>) -> Result<Vec<u8>, AllocError>
    ensures { IfOk result (λ title. title.items ≡ pages.event_title report.now) }
{
    let said = head_text(alloc, report, b"012")?;
    title_or(alloc, said)
}

// The dates of the event: from one to another, or one alone.
fn event_dates(alloc: Global, report: &Report<'_>) -> Result<Vec<u8>, AllocError>
    ensures { IfOk result (λ dates. dates.items ≡ pages.event_dates report.now) }
{
    let first = head_text(alloc, report, b"042")?;
    let last = head_text(alloc, report, b"052")?;
    joined_by(alloc, " to ", first.as_slice(), last.as_slice())
}

// How many rounds were paired, and of how many if the report says it.
fn rounds_text(alloc: Global, rounds: u8, total: Option<u8>) -> Result<String, AllocError>
    ensures { IfOk result (λ text. string_bytes text ≡ pages.rounds_text rounds total) }
{
    match total {
        Some(total) => format!(in alloc; "{rounds} of {total}"),
        None => rounds.to_string(alloc),
    }
}

// Puts that a page is as wide as the screen.
#[tactic(auto, unfolding(crate::specs::Pages::viewport))]
fn put_viewport(page: &mut Markup) -> Result<(), AllocError>
    ensures { OnOk result (page.new ≡ page.old ++ node_text pages.viewport) }
{
    let name = Attribute {
        name: AttributeName::Name,
        value: "viewport",
    };
    let content = Attribute {
        name: AttributeName::Content,
        value: "width=device-width, initial-scale=1",
    };
    page.element(Tag::Meta, &[name, content], b"")
}

// Puts the style sheet.
#[tactic(auto, unfolding(crate::specs::Pages::style))]
fn put_style(page: &mut Markup) -> Result<(), AllocError>
    ensures { OnOk result (page.new ≡ page.old ++ node_text pages.style) }
{
    page.element(Tag::Style, &[], STYLE.as_bytes())
}

// Puts the head of the document.
#[tactic(auto, unfolding(crate::specs::Pages::document_head))]
fn put_head(page: &mut Markup, title: &[u8]) -> Result<(), AllocError>
    ensures { OnOk result (page.new ≡ page.old ++ node_text (pages.document_head title.now)) }
{
    let charset = Attribute {
        name: AttributeName::Charset,
        value: "utf-8",
    };
    page.start(Tag::Head, &[])?;
    page.element(Tag::Meta, &[charset], b"")?;
    put_viewport(page)?;
    page.element(Tag::Title, &[], title)?;
    put_style(page)?;
    page.end(Tag::Head)
}

// Puts what the first line of a kind says, behind a label, if it says anything.
fn put_said(
    page: &mut Markup,
    report: &Report<'_>,
    label: &str,
    kind: &[u8],
) -> Result<(), AllocError>
    ensures { OnOk result (page.new ≡ page.old ++ node_text (fact label.now (head_text report.now kind.now))) }
{
    let said = head_text(page.allocator(), report, kind)?;
    put_fact(page, label, said.as_slice())
}

// Puts the dates of the event, if the report says them.
fn put_dates(page: &mut Markup, report: &Report<'_>) -> Result<(), AllocError>
    ensures { OnOk result (page.new ≡ page.old ++ node_text (fact (codes "Dates") (pages.event_dates report.now))) }
{
    let dates = event_dates(page.allocator(), report)?;
    put_fact(page, "Dates", dates.as_slice())
}

// Puts place, dates and chief arbiter, if the report says them.
#[tactic(auto, unfolding(crate::specs::Pages::said_facts))]
fn put_said_facts(page: &mut Markup, report: &Report<'_>) -> Result<(), AllocError>
    ensures { OnOk result (page.new ≡ page.old ++ node_text (pages.said_facts report.now)) }
{
    put_said(page, report, "Place", b"022")?;
    put_dates(page, report)?;
    put_said(page, report, "Chief arbiter", b"102")
}

// Puts how many rounds were paired, and how many players there are.
#[tactic(auto, unfolding(crate::specs::Pages::counted_facts))]
fn put_counted_facts(page: &mut Markup, report: &Report<'_>) -> Result<(), AllocError>
    ensures { OnOk result (page.new ≡ page.old ++ node_text (pages.counted_facts report.now)) }
{
    let alloc = page.allocator();
    let rounds = rounds_text(alloc, report.rounds_played(), report.total_rounds())?;
    let players = report.count().to_string(alloc)?;
    put_fact(page, "Rounds paired", rounds.as_bytes())?;
    put_fact(page, "Players", players.as_bytes())
}

// Puts what the page says of the event.
#[tactic(auto, unfolding(crate::specs::Pages::page_header))]
fn put_header(page: &mut Markup, title: &[u8], report: &Report<'_>) -> Result<(), AllocError>
    ensures { OnOk result (page.new ≡ page.old ++ node_text (pages.page_header title.now report.now)) }
{
    page.start(Tag::Header, &[])?;
    page.element(Tag::Heading, &[], title)?;
    put_said_facts(page, report)?;
    put_counted_facts(page, report)?;
    page.end(Tag::Header)
}

// Puts a link to a round.
#[tactic(auto, unfolding(crate::specs::Pages::round_item))]
fn put_round_item(page: &mut Markup, round: u8) -> Result<(), AllocError>
    ensures { OnOk result (page.new ≡ page.old ++ node_text (pages.round_item round)) }
{
    let alloc = page.allocator();
    let name = round_name(alloc, round)?;
    let words = round_words(alloc, round)?;
    put_item(page, name.as_str(), words.as_bytes())
}

// Puts the links to so many rounds, the last one first.
#[tactic(auto, using(crate::proofs::PartLemmas::down_more))]
fn put_round_items(page: &mut Markup, rounds: u8) -> Result<(), AllocError>
    ensures { OnOk result (page.new ≡ page.old ++ node_text (each_down pages.round_item rounds)) }
{
    let mut left = rounds;
    while 0 < left {
        put_round_item(page, left)?;
        left -= 1;
    }
    Ok(())
}

// Puts a link to the names, if a round was paired.
fn put_names_item(page: &mut Markup, rounds: u8) -> Result<(), AllocError>
    ensures { OnOk result (page.new ≡ page.old ++ node_text (pages.names_item rounds)) }
{
    if rounds == 0 {
        return Ok(());
    }
    put_item(page, "names", b"By name")
}

// Puts the links to the sections behind the rounds.
#[tactic(auto, unfolding(crate::specs::Pages::last_items))]
fn put_last_items(page: &mut Markup, rounds: u8) -> Result<(), AllocError>
    ensures { OnOk result (page.new ≡ page.old ++ node_text (pages.last_items rounds)) }
{
    put_names_item(page, rounds)?;
    put_item(page, "standings", b"Standings")?;
    put_item(page, "players", b"Players")
}

// Puts the links to the sections.
#[tactic(auto, unfolding(crate::specs::Pages::links))]
fn put_links(page: &mut Markup, rounds: u8) -> Result<(), AllocError>
    ensures { OnOk result (page.new ≡ page.old ++ node_text (pages.links rounds)) }
{
    page.start(Tag::Nav, &[])?;
    page.start(Tag::List, &[])?;
    put_round_items(page, rounds)?;
    put_last_items(page, rounds)?;
    page.end(Tag::List)?;
    page.end(Tag::Nav)
}

// Puts the sections of the rounds that were paired, the last one first.
#[tactic(auto, unfolding(crate::specs::Pages::round_sections), using(crate::proofs::PartLemmas::down_more))]
fn put_rounds(page: &mut Markup, report: &Report<'_>) -> Result<(), AllocError>
    ensures { OnOk result (page.new ≡ page.old ++ node_text (pages.round_sections report.now)) }
{
    let dates = first_line(report, b"132");
    let mut left = report.rounds_played();
    while 0 < left {
        put_round(page, report, dates, left)?;
        left -= 1;
    }
    Ok(())
}

// Puts who sits where in the last round, if a round was paired.
fn put_last_names(page: &mut Markup, report: &Report<'_>, rounds: u8) -> Result<(), AllocError>
    ensures { OnOk result (page.new ≡ page.old ++ node_text (pages.last_names report.now rounds)) }
{
    if rounds == 0 {
        return Ok(());
    }
    put_names_of(page, report, rounds)
}

// Puts the sections of the page.
#[tactic(auto, unfolding(crate::specs::Pages::sections))]
fn put_sections(page: &mut Markup, report: &Report<'_>, keys: &[Key]) -> Result<(), AllocError>
    ensures { OnOk result (page.new ≡ page.old ++ node_text (pages.sections report.now keys.now)) }
{
    page.start(Tag::Main, &[])?;
    put_rounds(page, report)?;
    put_last_names(page, report, report.rounds_played())?;
    put_standings(page, report, keys)?;
    put_players(page, report)?;
    page.end(Tag::Main)
}

// Puts the body of the page.
#[tactic(auto, unfolding(crate::specs::Pages::page_body))]
fn put_body(
    page: &mut Markup,
    title: &[u8],
    report: &Report<'_>,
    keys: &[Key],
) -> Result<(), AllocError>
    ensures { OnOk result (page.new ≡ page.old ++ node_text (pages.page_body title.now report.now keys.now)) }
{
    page.start(Tag::Body, &[])?;
    put_header(page, title, report)?;
    put_links(page, report.rounds_played())?;
    put_sections(page, report, keys)?;
    page.end(Tag::Body)
}

// Puts the page.
#[tactic(auto, unfolding(crate::specs::Pages::page_of))]
fn put_page(page: &mut Markup, report: &Report<'_>, keys: &[Key]) -> Result<(), AllocError>
    ensures { OnOk result (page.new ≡ page.old ++ node_text (pages.page_of report.now keys.now)) }
{
    let title = event_title(page.allocator(), report)?;
    let lang = Attribute {
        name: AttributeName::Lang,
        value: "en",
    };
    page.start(Tag::Html, &[lang])?;
    put_head(page, title.as_slice())?;
    put_body(page, title.as_slice(), report, keys)?;
    page.end(Tag::Html)
}

/// The document of a tournament, with the keys that break ties in its standings, in their order.
///
/// # Errors
/// Memory was refused.
#[tactic(auto, unfolding(crate::specs::Pages::document_of))]
pub fn document(alloc: Global, report: &Report<'_>, keys: &[Key]) -> Result<Vec<u8>, AllocError>
    ensures { IfOk result (λ text. text.items ≡ pages.document_of report.now keys.now) }
{
    let mut page = Markup::new(alloc);
    page.doctype()?;
    put_page(&mut page, report, keys)?;
    Ok(page.into_bytes())
}
