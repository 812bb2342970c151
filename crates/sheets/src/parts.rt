// The parts that the page is put together from: cells, rows, tables, sections and links.
ghost use Rattle.std.specs.Prelude.{◌≡◌, ◌++◌, map, OnOk};
ghost use Rattle.std.specs.Fmt.{decimal};
ghost use Rattle.markup.specs.Prelude.{node_text};
ghost use Rattle.sheets.specs.Parts.{cell, column_head, each, fact, item, link, name_cell};
ghost use Rattle.sheets.specs.Steps.{row_start, rows_start, section_start, table_end, table_start};

use crate::persons::Person;
use crate::texts::phrase;
use markup::{Attribute, AttributeName, Markup, Tag};
use std::alloc::AllocError;

/// Puts a cell of a table.
pub(crate) fn put_cell(page: &mut Markup, text: &[u8]) -> Result<(), AllocError>
    ensures { OnOk result (page.new ≡ page.old ++ node_text (cell text.now)) }
{
    page.element(Tag::Cell, &[], text)
}

/// Puts a cell with a number.
pub(crate) fn put_number(page: &mut Markup, number: usize) -> Result<(), AllocError>
    ensures { OnOk result (page.new ≡ page.old ++ node_text (cell (decimal number))) }
{
    let text = number.to_string(page.allocator())?;
    put_cell(page, text.as_bytes())
}

/// Puts the head of a column.
pub(crate) fn put_column_head(page: &mut Markup, label: &[u8]) -> Result<(), AllocError>
    ensures { OnOk result (page.new ≡ page.old ++ node_text (column_head label.now)) }
{
    let scope = Attribute {
        name: AttributeName::Scope,
        value: "col",
    };
    page.element(Tag::HeaderCell, &[scope], label)
}

/// Puts the heads of some columns.
pub(crate) fn put_column_heads(page: &mut Markup, labels: &[&str]) -> Result<(), AllocError>
    ensures { OnOk result (page.new ≡ page.old ++ node_text (each column_head (map (λ label. label.now) labels.now))) }
{
    for label in labels {
        put_column_head(page, label.as_bytes())?;
    }
    Ok(())
}

/// Puts the start of a row, and the cell that heads it.
pub(crate) fn start_row(page: &mut Markup, first: &[u8]) -> Result<(), AllocError>
    ensures { OnOk result (page.new ≡ page.old ++ row_start first.now) }
{
    let scope = Attribute {
        name: AttributeName::Scope,
        value: "row",
    };
    page.start(Tag::Row, &[])?;
    page.element(Tag::HeaderCell, &[scope], first)
}

/// Puts a table up to the heads of its columns.
pub(crate) fn start_table(page: &mut Markup, caption: &str) -> Result<(), AllocError>
    ensures { OnOk result (page.new ≡ page.old ++ table_start caption.now) }
{
    page.start(Tag::Division, &[])?;
    page.start(Tag::Table, &[])?;
    page.element(Tag::Caption, &[], caption.as_bytes())?;
    page.start(Tag::TableHead, &[])?;
    page.start(Tag::Row, &[])
}

/// Puts what stands between the heads of the columns and the rows.
pub(crate) fn start_rows(page: &mut Markup) -> Result<(), AllocError>
    ensures { OnOk result (page.new ≡ page.old ++ rows_start) }
{
    page.end(Tag::Row)?;
    page.end(Tag::TableHead)?;
    page.start(Tag::TableBody, &[])
}

/// Puts what stands behind the rows.
pub(crate) fn end_table(page: &mut Markup) -> Result<(), AllocError>
    ensures { OnOk result (page.new ≡ page.old ++ table_end) }
{
    page.end(Tag::TableBody)?;
    page.end(Tag::Table)?;
    page.end(Tag::Division)
}

/// Puts the start of a section, and its heading.
pub(crate) fn start_section(page: &mut Markup, name: &str, heading: &[u8]) -> Result<(), AllocError>
    ensures { OnOk result (page.new ≡ page.old ++ section_start name.now heading.now) }
{
    let id = Attribute {
        name: AttributeName::Id,
        value: name,
    };
    page.start(Tag::Section, &[id])?;
    page.element(Tag::Subheading, &[], heading)
}

/// Puts a cell with title and name of a player, and in small letters federation and rating.
#[tactic(auto, unfolding(crate::specs::Parts::name_cell))]
pub(crate) fn put_name_cell(page: &mut Markup, person: &Person) -> Result<(), AllocError>
    ensures { OnOk result (page.new ≡ page.old ++ node_text (name_cell person.now)) }
{
    let alloc = page.allocator();
    let mut name = phrase(alloc, person.title.as_slice(), person.name.as_slice())?;
    name.push(b' ')?;
    let behind = phrase(
        alloc,
        person.federation.as_slice(),
        person.rating.as_slice(),
    )?;
    page.start(Tag::Cell, &[])?;
    page.text(name.as_slice())?;
    page.element(Tag::Small, &[], behind.as_slice())?;
    page.end(Tag::Cell)
}

/// Puts a text that leads to a section of the page.
pub(crate) fn put_link(page: &mut Markup, name: &str, text: &[u8]) -> Result<(), AllocError>
    ensures { OnOk result (page.new ≡ page.old ++ node_text (link name.now text.now)) }
{
    let target = format!(in page.allocator(); "#{name}")?;
    let href = Attribute {
        name: AttributeName::Href,
        value: target.as_str(),
    };
    page.element(Tag::Link, &[href], text)
}

/// Puts an item of a list that leads to a section of the page.
#[tactic(auto, unfolding(crate::specs::Parts::item))]
pub(crate) fn put_item(page: &mut Markup, name: &str, text: &[u8]) -> Result<(), AllocError>
    ensures { OnOk result (page.new ≡ page.old ++ node_text (item name.now text.now)) }
{
    page.start(Tag::Item, &[])?;
    put_link(page, name, text)?;
    page.end(Tag::Item)
}

/// Puts a paragraph with a label and a text; nothing if there is no text.
#[tactic(auto, unfolding(crate::specs::Parts::fact))]
pub(crate) fn put_fact(page: &mut Markup, label: &str, text: &[u8]) -> Result<(), AllocError>
    ensures { OnOk result (page.new ≡ page.old ++ node_text (fact label.now text.now)) }
{
    if text.is_empty() {
        return Ok(());
    }
    let mut said = Vec::from_slice(page.allocator(), label.as_bytes())?;
    said.extend_from_slice(b": ")?;
    said.extend_from_slice(text)?;
    page.element(Tag::Paragraph, &[], said.as_slice())
}
