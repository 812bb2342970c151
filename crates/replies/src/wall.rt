// The boards and the standings for the wall: with names, in columns.
ghost use Rattle.std.specs.Prelude.{◌≡◌, ◌++◌, ◌∷◌, ◌-◌, ◌<◌, [], IfOk, OnOk};
ghost use Rattle.std.specs.Fmt.{decimal};
ghost use Rattle.common_texts.specs.KeyTexts.{value_text};
ghost use Rattle.replies.specs.Replies.{answer_of};
ghost use Rattle.replies.specs.Statuses.{done};
ghost use Rattle.replies.specs.StandingsAnswers.{rounds_shown};
ghost use Rattle.replies.specs.GameTexts.{games_labels};
ghost use Rattle.replies.specs.Tables.{right, table_text};
ghost use Rattle.replies.specs.WallTexts as texts;

use crate::games::{push_games, rounds_shown};
use crate::reply::{Reply, Status};
use crate::table::{TableLine, put_table};
use common_texts::{HalfPoints, KeyValue, Page, result_mark};
use requests::StandingsOptions;
use std::alloc::{AllocError, Global};
use tables::{Key, Row};
use trf16_report::Report;

/// The start ranks of white and of black at a board; black 0 is the bye.
type Board = (u16, u16);

/// The boards with names and scores: for each its number, white and black, and the bye last.
pub fn boards(alloc: Global, report: &Report<'_>, boards: &[Board]) -> Result<Reply, AllocError>
    ensures { IfOk result (λ reply. answer_of reply ≡ done (texts.named_boards_text report.now boards.now)) }
{
    let lines = board_lines(alloc, report, boards)?;
    in_columns(alloc, report, lines.as_slice(), 7)
}

fn board_lines(
    alloc: Global,
    report: &Report<'_>,
    boards: &[Board],
) -> Result<Vec<TableLine>, AllocError>
    ensures { IfOk result (λ lines. lines.items ≡ texts.boards_labels report.now 1 boards.now) }
{
    let before = report.rounds_played();
    let mut lines = Vec::new(alloc);
    for (i, board) in boards.iter().enumerate() {
        let mut line = line_of_number(alloc, i + 1)?;
        push_board(&mut line, report, before, *board)?;
        lines.push(line)?;
    }
    Ok(lines)
}

/// The boards of a round that was paired, with names, the scores before that round, and the results.
pub fn played_boards(
    alloc: Global,
    report: &Report<'_>,
    round: u8,
    boards: &[Board],
) -> Result<Reply, AllocError>
    requires { 0 < round }
    ensures { IfOk result (λ reply. answer_of reply ≡ done (texts.played_boards_text report.now round boards.now)) }
{
    let lines = played_lines(alloc, report, round, boards)?;
    in_columns(alloc, report, lines.as_slice(), 8)
}

fn played_lines(
    alloc: Global,
    report: &Report<'_>,
    round: u8,
    boards: &[Board],
) -> Result<Vec<TableLine>, AllocError>
    requires { 0 < round }
    ensures { IfOk result (λ lines. lines.items ≡ texts.played_labels report.now round 1 boards.now) }
{
    let mut lines = Vec::new(alloc);
    for (i, board) in boards.iter().enumerate() {
        let mut line = line_of_number(alloc, i + 1)?;
        push_played(&mut line, report, round, *board)?;
        lines.push(line)?;
    }
    Ok(lines)
}

// Puts a board that was paired, with its result.
fn push_played(
    line: &mut TableLine,
    report: &Report<'_>,
    round: u8,
    board: Board,
) -> Result<(), AllocError>
    requires { 0 < round }
    ensures { OnOk result (line.new ≡ line.old
        ++ (texts.board_labels report.now (round - 1) board ++ texts.result_labels report.now round board)) }
{
    push_board(line, report, round - 1, board)?;
    push_result(line, report, round, board)
}

/// The standings with names: for each player the place, name, score, the values of the keys, and the games if they are
/// wanted.
pub fn standings(
    alloc: Global,
    options: &StandingsOptions,
    report: &Report<'_>,
    rows: &[Row],
) -> Result<Reply, AllocError>
    ensures { IfOk result (λ reply. answer_of reply
        ≡ done (texts.named_rows_text report.now options.now.keys (rounds_shown options.now report.now) rows.now)) }
{
    let lines = row_lines(alloc, options, report, rows)?;
    let columns = 4 + options.keys.as_slice().len() + usize::from(rounds_shown(options, report));
    in_columns(alloc, report, lines.as_slice(), columns)
}

// The lines of the standings.
fn row_lines(
    alloc: Global,
    options: &StandingsOptions,
    report: &Report<'_>,
    rows: &[Row],
) -> Result<Vec<TableLine>, AllocError>
    ensures { IfOk result (λ lines. lines.items
        ≡ texts.rows_labels report.now options.now.keys (rounds_shown options.now report.now) 1 rows.now) }
{
    let mut lines = Vec::new(alloc);
    for (i, row) in rows.iter().enumerate() {
        let mut line = line_of_number(alloc, i + 1)?;
        push_row(&mut line, options, report, row)?;
        lines.push(line)?;
    }
    Ok(lines)
}

// Lines as a table of so many columns.
fn in_columns(
    alloc: Global,
    report: &Report<'_>,
    lines: &[TableLine],
    columns: usize,
) -> Result<Reply, AllocError>
    ensures { IfOk result (λ reply. answer_of reply ≡ done (table_text report.now.utf8 columns lines.now)) }
{
    let mut text = Page::new(alloc);
    put_table(&mut text, lines, report.is_utf8(), columns)?;
    Ok(Reply::of_page(Status::Done, text))
}

// A line that begins with its number.
fn line_of_number(alloc: Global, number: usize) -> Result<TableLine, AllocError>
    ensures { IfOk result (λ line. line ≡ right (decimal number) ∷ []) }
{
    let mut line = TableLine::new(alloc);
    write!(line, "{number}")?;
    Ok(line)
}

// Puts a board: white, and black or the bye, with the scores of the rounds before.
#[tactic(auto, unfolding(crate::specs::WallTexts::board_labels))]
fn push_board(
    line: &mut TableLine,
    report: &Report<'_>,
    before: u8,
    board: Board,
) -> Result<(), AllocError>
    ensures { OnOk result (line.new ≡ line.old ++ texts.board_labels report.now before board) }
{
    let (white, black) = board;
    push_paired(line, report, before, white)?;
    push_opponent(line, report, before, black)
}

// Puts who meets white: black, or if black is 0, that white has the bye.
fn push_opponent(
    line: &mut TableLine,
    report: &Report<'_>,
    before: u8,
    black: u16,
) -> Result<(), AllocError>
    ensures { OnOk result (line.new ≡ line.old ++ texts.opponent_labels report.now before black) }
{
    if black == 0 {
        return write!(line, "bye");
    }
    push_paired(line, report, before, black)
}

// Puts a player of a round, with the score of the rounds before it.
fn push_paired(
    line: &mut TableLine,
    report: &Report<'_>,
    before: u8,
    start: u16,
) -> Result<(), AllocError>
    ensures { OnOk result (line.new ≡ line.old ++ texts.paired_labels report.now before start) }
{
    push_player(line, report, start, report.points(start, before))
}

// Puts the result of a board in a round, if there is one.
fn push_result(
    line: &mut TableLine,
    report: &Report<'_>,
    round: u8,
    board: Board,
) -> Result<(), AllocError>
    requires { 0 < round }
    ensures { OnOk result (line.new ≡ line.old ++ texts.result_labels report.now round board) }
{
    let white = result_mark(report.cell(board.0, round));
    let black = result_mark(report.cell(board.1, round));
    push_marks(line, white, black)
}

// Puts the result by the marks of white and of black, if both have one.
fn push_marks(line: &mut TableLine, white: &str, black: &str) -> Result<(), AllocError>
    ensures { OnOk result (line.new ≡ line.old ++ texts.marks_labels white.now black.now) }
{
    if white.is_empty() || black.is_empty() {
        return Ok(());
    }
    write!(line, "{white}-{black}")
}

// Puts a player: start rank, name and score.
#[tactic(auto, unfolding(crate::specs::WallTexts::player_labels))]
fn push_player(
    line: &mut TableLine,
    report: &Report<'_>,
    start: u16,
    score: u16,
) -> Result<(), AllocError>
    ensures { OnOk result (line.new ≡ line.old ++ texts.player_labels report.now start score) }
{
    let points = HalfPoints(u32::from(score));
    write!(line, "{start}")?;
    line.push_name(report.name(start))?;
    write!(line, "{points}")
}

// Puts a player of the standings, the values of the keys, and the games if they are wanted.
#[tactic(auto, unfolding(crate::specs::WallTexts::row_labels))]
fn push_row(
    line: &mut TableLine,
    options: &StandingsOptions,
    report: &Report<'_>,
    row: &Row,
) -> Result<(), AllocError>
    ensures { OnOk result (line.new ≡ line.old ++ (texts.row_labels report.now options.now.keys row.now
        ++ games_labels report.now row.now.start (rounds_shown options.now report.now))) }
{
    push_player(line, report, row.start(), row.score())?;
    push_values(line, options.keys.as_slice(), row.values())?;
    push_games(line, report, row.start(), rounds_shown(options, report))
}

// Puts the value of a key.
fn push_value(line: &mut TableLine, key: Key, value: Option<u32>) -> Result<(), AllocError>
    ensures { OnOk result (line.new ≡ line.old ++ right (value_text key value) ∷ []) }
{
    let shown = KeyValue { key, value };
    write!(line, "{shown}")
}

// Puts the values of some keys, in their order.
#[tactic(auto, using(crate::proofs::TableLemmas::labels_end))]
fn push_values(line: &mut TableLine, keys: &[Key], values: &[Option<u32>]) -> Result<(), AllocError>
    ensures { OnOk result (line.new ≡ line.old ++ texts.values_labels keys.now values.now) }
{
    for (i, key) in keys.iter().enumerate() {
        if values.len() <= i {
            return Ok(());
        }
        push_value(line, *key, values[i])?;
    }
    Ok(())
}
