// The section of a round: its boards, and who was not paired.
ghost use Rattle.std.specs.Prelude.{◌≡◌, ◌++◌, ◌<◌, ◌≤◌, IfOk, OnOk, string_bytes};
ghost use Rattle.common_texts.specs.Texts.{halves_text};
ghost use Rattle.markup.specs.Prelude.{node_text};
ghost use Rattle.trf16_report.specs.declared.limits.TheConstants.{MOST_ROUNDS};
ghost use Rattle.sheets.specs.Parts.{cell, column_head, each, round_name, round_words};
ghost use Rattle.sheets.specs.Rounds as rounds;

use crate::head_lines::date_in;
use crate::orders::not_paired;
use crate::parts::{
    end_table, put_cell, put_column_heads, put_name_cell, put_number, start_row, start_rows,
    start_section, start_table,
};
use crate::persons::person_in;
use crate::texts::joined_by;
use common_texts::{HalfPoints, result_mark};
use markup::{Attribute, AttributeName, Markup, Tag};
use std::alloc::{AllocError, Global};
use tables::{Board, boards_of};
use trf16_report::{Bye, Cell, Report};

/// The name of the section of a round.
pub(crate) fn round_name(alloc: Global, round: u8) -> Result<String, AllocError>
    ensures { IfOk result (λ name. string_bytes name ≡ round_name round) }
{
    format!(in alloc; "round-{round}")
}

/// The words for a round.
pub(crate) fn round_words(alloc: Global, round: u8) -> Result<String, AllocError>
    ensures { IfOk result (λ words. string_bytes words ≡ round_words round) }
{
    format!(in alloc; "Round {round}")
}

/// Puts a cell with half points, shown as points.
pub(crate) fn put_points(page: &mut Markup, halves: u16) -> Result<(), AllocError>
    ensures { OnOk result (page.new ≡ page.old ++ node_text (cell (halves_text halves))) }
{
    let text = HalfPoints(u32::from(halves)).to_string(page.allocator())?;
    put_cell(page, text.as_bytes())
}

// Puts a player of a round: start rank, name, and the score before the round.
#[tactic(auto, unfolding(crate::specs::Rounds::seat))]
fn put_seat(page: &mut Markup, report: &Report<'_>, round: u8, start: u16) -> Result<(), AllocError>
    requires { 0 < round }
    ensures { OnOk result (page.new ≡ page.old ++ node_text (rounds.seat report.now round start)) }
{
    let person = person_in(page.allocator(), report, start)?;
    put_number(page, usize::from(start))?;
    put_name_cell(page, &person)?;
    put_points(page, report.points(start, round - 1))
}

// The result of a board by the marks of white and of black, if both have one.
fn marks_text(alloc: Global, white: &str, black: &str) -> Result<String, AllocError>
    ensures { IfOk result (λ text. string_bytes text ≡ rounds.marks_text white.now black.now) }
{
    if white.is_empty() || black.is_empty() {
        return Ok(String::new(alloc));
    }
    format!(in alloc; "{white}-{black}")
}

// The result of a board in a round, as white and black have it.
fn result_text(
    alloc: Global,
    report: &Report<'_>,
    round: u8,
    board: Board,
) -> Result<String, AllocError>
    requires { 0 < round }
    ensures { IfOk result (λ text. string_bytes text ≡ rounds.result_text report.now round board) }
{
    let white = result_mark(report.cell(board.0, round));
    let black = result_mark(report.cell(board.1, round));
    marks_text(alloc, white, black)
}

// Puts that white has the bye.
fn put_bye(page: &mut Markup) -> Result<(), AllocError>
    ensures { OnOk result (page.new ≡ page.old ++ node_text rounds.bye_part) }
{
    let colspan = Attribute {
        name: AttributeName::Colspan,
        value: "3",
    };
    put_cell(page, b"")?;
    page.element(Tag::Cell, &[colspan], b"bye")
}

// Puts the result and black, or that white has the bye.
fn put_opponent(
    page: &mut Markup,
    report: &Report<'_>,
    round: u8,
    board: Board,
) -> Result<(), AllocError>
    requires { 0 < round }
    ensures { OnOk result (page.new ≡ page.old ++ node_text (rounds.opponent_part report.now round board)) }
{
    if board.1 == 0 {
        return put_bye(page);
    }
    let text = result_text(page.allocator(), report, round, board)?;
    put_cell(page, text.as_bytes())?;
    put_seat(page, report, round, board.1)
}

// Puts a board of a round behind its number: white, the result and black.
#[tactic(auto, unfolding(crate::specs::Rounds::board_row))]
fn put_board(
    page: &mut Markup,
    report: &Report<'_>,
    round: u8,
    numbered: (usize, Board),
) -> Result<(), AllocError>
    requires { 0 < round }
    ensures { OnOk result (page.new ≡ page.old ++ node_text (rounds.board_row report.now round numbered.0 numbered.1)) }
{
    let (number, board) = numbered;
    let text = number.to_string(page.allocator())?;
    start_row(page, text.as_bytes())?;
    put_seat(page, report, round, board.0)?;
    put_opponent(page, report, round, board)?;
    page.end(Tag::Row)
}

// Puts the rows of some boards.
fn put_boards(
    page: &mut Markup,
    report: &Report<'_>,
    round: u8,
    boards: &[Board],
) -> Result<(), AllocError>
    requires { 0 < round }
    ensures { OnOk result (page.new ≡ page.old ++ node_text (rounds.board_rows report.now round boards.now)) }
{
    for (i, board) in boards.iter().enumerate() {
        put_board(page, report, round, (i + 1, *board))?;
    }
    Ok(())
}

// Puts the heads of the columns of boards.
fn put_board_heads(page: &mut Markup) -> Result<(), AllocError>
    ensures { OnOk result (page.new ≡ page.old ++ node_text (each column_head rounds.board_heads)) }
{
    let labels = [
        "Board", "No.", "White", "Pts", "Result", "No.", "Black", "Pts",
    ];
    put_column_heads(page, &labels)
}

// The caption of the boards of a round.
#[tactic(auto, unfolding(crate::specs::Rounds::boards_caption))]
fn boards_caption() -> &'static str
    ensures { result.now ≡ rounds.boards_caption }
{
    "The boards, with the points before the round"
}

// Puts the table of the boards of a round.
#[tactic(auto, unfolding(crate::specs::Rounds::boards_table), using(crate::proofs::PartLemmas::table_put))]
fn put_boards_table(
    page: &mut Markup,
    report: &Report<'_>,
    round: u8,
    boards: &[Board],
) -> Result<(), AllocError>
    requires { 0 < round }
    ensures { OnOk result (page.new ≡ page.old ++ node_text (rounds.boards_table report.now round boards.now)) }
{
    start_table(page, boards_caption())?;
    put_board_heads(page)?;
    start_rows(page)?;
    put_boards(page, report, round, boards)?;
    end_table(page)
}

/// Why a player was not paired, by their cell of the round: a bye that was asked for, with what it gives, or absent.
pub(crate) fn why_text(cell: Cell) -> &'static str
    ensures { result.now ≡ rounds.why_text cell }
{
    match cell {
        Cell::Bye(Bye::Half) => "half-point bye",
        Cell::Bye(Bye::Full) => "full-point bye",
        _ => "absent",
    }
}

// Puts a player who was not paired in a round.
#[tactic(auto, unfolding(crate::specs::Rounds::absent_row))]
fn put_absent(
    page: &mut Markup,
    report: &Report<'_>,
    round: u8,
    start: u16,
) -> Result<(), AllocError>
    requires { 0 < round }
    ensures { OnOk result (page.new ≡ page.old ++ node_text (rounds.absent_row report.now round start)) }
{
    let alloc = page.allocator();
    let person = person_in(alloc, report, start)?;
    let text = start.to_string(alloc)?;
    start_row(page, text.as_bytes())?;
    put_name_cell(page, &person)?;
    put_points(page, report.points(start, round - 1))?;
    put_cell(page, why_text(report.cell(start, round)).as_bytes())?;
    page.end(Tag::Row)
}

// Puts the rows of those who were not paired in a round.
fn put_absent_rows(
    page: &mut Markup,
    report: &Report<'_>,
    round: u8,
    starts: &[u16],
) -> Result<(), AllocError>
    requires { 0 < round }
    ensures { OnOk result (page.new ≡ page.old ++ node_text (each (rounds.absent_row report.now round) starts.now)) }
{
    for start in starts {
        put_absent(page, report, round, *start)?;
    }
    Ok(())
}

// Puts the table of those who were not paired in a round; nothing if there are none.
#[tactic(auto, using(crate::proofs::PartLemmas::table_put))]
fn put_absent_table(
    page: &mut Markup,
    report: &Report<'_>,
    round: u8,
    starts: &[u16],
) -> Result<(), AllocError>
    requires { 0 < round }
    ensures { OnOk result (page.new ≡ page.old ++ node_text (rounds.absent_table report.now round starts.now)) }
{
    if starts.is_empty() {
        return Ok(());
    }
    start_table(page, "Not paired")?;
    put_column_heads(page, &["No.", "Name", "Pts", "Why"])?;
    start_rows(page)?;
    put_absent_rows(page, report, round, starts)?;
    end_table(page)
}

// The heading of a round: its number, and its date if line 132 has one.
fn round_heading(
    alloc: Global,
    report: &Report<'_>,
    dates: &[u8],
    round: u8,
) -> Result<Vec<u8>, AllocError>
    requires { round ≤ MOST_ROUNDS }
    ensures { IfOk result (λ text. text.items ≡ rounds.round_heading report.now dates.now round) }
{
    let words = round_words(alloc, round)?;
    let date = date_in(alloc, report.is_utf8(), dates, round)?;
    joined_by(alloc, ", ", words.as_bytes(), date.as_slice())
}

/// Puts the section of a round, given the line of the dates.
#[tactic(auto, unfolding(crate::specs::Rounds::round_section, crate::specs::Parts::section))]
pub(crate) fn put_round(
    page: &mut Markup,
    report: &Report<'_>,
    dates: &[u8],
    round: u8,
) -> Result<(), AllocError>
    requires counted { 0 < round }
    requires few { round ≤ MOST_ROUNDS }
    ensures { OnOk result (page.new ≡ page.old ++ node_text (rounds.round_section report.now dates.now round)) }
{
    let alloc = page.allocator();
    let name = round_name(alloc, round)?;
    let heading = round_heading(alloc, report, dates, round)?;
    let boards = boards_of(alloc, report, round)?;
    let absent = not_paired(alloc, report, round)?;
    start_section(page, name.as_str(), heading.as_slice())?;
    put_boards_table(page, report, round, &boards)?;
    put_absent_table(page, report, round, &absent)?;
    page.end(Tag::Section)
}
