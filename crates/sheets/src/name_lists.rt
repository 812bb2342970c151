// Who sits where in a round, by name.
ghost use Rattle.std.specs.Prelude.{◌≡◌, ◌++◌, ◌<◌, OnOk};
ghost use Rattle.markup.specs.Prelude.{node_text};
ghost use Rattle.sheets.specs.NameLists.{board_with, name_heads, name_row, name_rows, names_caption, names_section};
ghost use Rattle.sheets.specs.NameLists.{names_table, place_part, sitting};
ghost use Rattle.sheets.specs.Parts.{column_head, each, name_cell};
ghost use Rattle.sheets.specs.Persons.{person_in};

use crate::orders::{NamedPlayer, by_name};
use crate::parts::{
    end_table, put_cell, put_column_heads, put_name_cell, put_number, start_row, start_rows,
    start_section, start_table,
};
use crate::persons::person_in;
use crate::rounds::why_text;
use markup::{Markup, Tag};
use std::alloc::AllocError;
use tables::{Board, boards_of};
use trf16_report::Report;

// A round of a report, and its boards.
#[derive(Clone, Copy)]
struct Paired<'r, 'a> {
    report: &'r Report<'a>,
    round: u8,
    boards: &'r [Board],
}

// The board of a player among some, with its number from 1; none if the player has no board.
fn board_with(boards: &[Board], start: u16) -> Option<(usize, Board)>
    ensures { result ≡ board_with start 1 boards.now }
{
    for (i, board) in boards.iter().enumerate() {
        if board.0 == start || board.1 == start {
            return Some((i + 1, *board));
        }
    }
    None
}

// Puts the cell of the player with a start rank.
fn put_player(page: &mut Markup, report: &Report<'_>, start: u16) -> Result<(), AllocError>
    ensures { OnOk result (page.new ≡ page.old ++ node_text (name_cell (person_in report.now start))) }
{
    let person = person_in(page.allocator(), report, start)?;
    put_name_cell(page, &person)
}

// Puts the colour of a player at a board, and the opponent, or that the player has the bye.
fn put_place(
    page: &mut Markup,
    report: &Report<'_>,
    start: u16,
    board: Board,
) -> Result<(), AllocError>
    ensures { OnOk result (page.new ≡ page.old ++ node_text (place_part report.now start board)) }
{
    if board.1 == 0 {
        put_cell(page, b"")?;
        return put_cell(page, b"bye");
    }
    if board.0 == start {
        put_cell(page, b"White")?;
        return put_player(page, report, board.1);
    }
    put_cell(page, b"Black")?;
    put_player(page, report, board.0)
}

// Puts where a player sits: board, colour and opponent, or why they were not paired.
fn put_sitting(page: &mut Markup, paired: Paired<'_, '_>, start: u16) -> Result<(), AllocError>
    requires { 0 < paired.round }
    ensures { OnOk result (page.new ≡ page.old ++ node_text (sitting paired.entry.report.now paired.entry.round start
        (board_with start 1 paired.entry.boards.now))) }
{
    match board_with(paired.boards, start) {
        Some((number, board)) => {
            put_number(page, number)?;
            put_place(page, paired.report, start, board)
        }
        None => {
            let cell = paired.report.cell(start, paired.round);
            put_cell(page, b"")?;
            put_cell(page, b"")?;
            put_cell(page, why_text(cell).as_bytes())
        }
    }
}

// Puts the row of a player: name, and where they sit.
#[tactic(auto, unfolding(crate::specs::NameLists::name_row))]
fn put_name(page: &mut Markup, paired: Paired<'_, '_>, start: u16) -> Result<(), AllocError>
    requires { 0 < paired.round }
    ensures { OnOk result (page.new
        ≡ page.old ++ node_text (name_row paired.entry.report.now paired.entry.round paired.entry.boards.now start)) }
{
    let person = person_in(page.allocator(), paired.report, start)?;
    start_row(page, person.name.as_slice())?;
    put_sitting(page, paired, start)?;
    page.end(Tag::Row)
}

// Puts the rows of some players.
fn put_names(
    page: &mut Markup,
    paired: Paired<'_, '_>,
    players: &[NamedPlayer],
) -> Result<(), AllocError>
    requires { 0 < paired.round }
    ensures { OnOk result (page.new ≡ page.old ++ node_text (name_rows paired.entry.report.now paired.entry.round
        paired.entry.boards.now players.now)) }
{
    for player in players {
        put_name(page, paired, player.start())?;
    }
    Ok(())
}

// Puts the heads of the columns.
fn put_heads(page: &mut Markup) -> Result<(), AllocError>
    ensures { OnOk result (page.new ≡ page.old ++ node_text (each column_head name_heads)) }
{
    put_column_heads(page, &["Name", "Board", "Colour", "Opponent"])
}

// The caption.
#[tactic(auto, unfolding(crate::specs::NameLists::names_caption))]
fn caption() -> &'static str
    ensures { result.now ≡ names_caption }
{
    "All players in the order of their names"
}

// Puts the table of some players.
#[tactic(auto, unfolding(crate::specs::NameLists::names_table), using(crate::proofs::PartLemmas::table_put))]
fn put_table(
    page: &mut Markup,
    paired: Paired<'_, '_>,
    players: &[NamedPlayer],
) -> Result<(), AllocError>
    requires { 0 < paired.round }
    ensures { OnOk result (page.new ≡ page.old ++ node_text (names_table paired.entry.report.now paired.entry.round
        paired.entry.boards.now players.now)) }
{
    start_table(page, caption())?;
    put_heads(page)?;
    start_rows(page)?;
    put_names(page, paired, players)?;
    end_table(page)
}

/// Puts who sits where in a round, by name.
#[tactic(auto, unfolding(crate::specs::NameLists::names_section, crate::specs::Parts::section))]
pub(crate) fn put_names_of(
    page: &mut Markup,
    report: &Report<'_>,
    round: u8,
) -> Result<(), AllocError>
    requires { 0 < round }
    ensures { OnOk result (page.new ≡ page.old ++ node_text (names_section report.now round)) }
{
    let alloc = page.allocator();
    let boards = boards_of(alloc, report, round)?;
    let players = by_name(alloc, report)?;
    let heading = format!(in alloc; "Round {round} by name")?;
    let paired = Paired {
        report,
        round,
        boards: &boards,
    };
    start_section(page, "names", heading.as_bytes())?;
    put_table(page, paired, &players)?;
    page.end(Tag::Section)
}
