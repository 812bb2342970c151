// The boards of a round, from the cells of its players.
ghost use Rattle.std.specs.Prelude.{◌≡◌, ◌<◌, IfOk};
ghost use Rattle.tables.specs.Boards as boards;

use crate::ranking::{Placed, all_in_order};
use std::alloc::{AllocError, Global};
use trf16_report::{Bye, Cell, Colour, Report};

/// The start ranks of white and of black at a board; black 0 is nobody, since white has the bye.
pub type Board = (u16, u16);

/// A board, and what its place among the boards of its round goes by.
#[derive(Clone, Copy)]
pub struct RankedBoard {
    /// White and black.
    pub board: Board,
    /// True if white has the bye.
    pub has_bye: bool,
    /// The score of the higher ranked player before the round, in half points.
    pub score: u16,
    /// The scores of both players before the round, in half points.
    pub both_scores: u32,
    /// The start rank of the higher ranked player.
    pub start: u16,
}

impl Placed for RankedBoard {
    ghost before = { boards.board_goes_before };

    fn goes_before(&self, other: &RankedBoard) -> bool {
        self.has_bye
            .cmp(&other.has_bye)
            .then(other.score.cmp(&self.score))
            .then(other.both_scores.cmp(&self.both_scores))
            .then(self.start.cmp(&other.start))
            .is_lt()
    }
}

/// The boards of a round as they stand in a report, in their order: by the score of the higher ranked player, then by
/// both scores, then by the start rank of that player, and those who have the bye last, by score and start rank. The
/// scores are those before the round. A round behind the last has no boards.
///
/// # Errors
/// Memory was refused.
pub fn boards_of(alloc: Global, report: &Report<'_>, round: u8) -> Result<Vec<Board>, AllocError>
    requires { 0 < round }
    ensures { IfOk result (λ found. found.items ≡ boards.boards_of report.now round) }
{
    let in_order = all_in_order(alloc, boards_unordered(alloc, report, round)?)?;
    in_order.iter().map(|ranked| ranked.board).collect(alloc)
}

// The boards in the order of the players' lines.
fn boards_unordered(
    alloc: Global,
    report: &Report<'_>,
    round: u8,
) -> Result<Vec<RankedBoard>, AllocError>
    requires { 0 < round }
    ensures { IfOk result (λ found. found.items ≡ boards.boards_unordered report.now round) }
{
    let mut boards = Vec::new(alloc);
    for player in report.players() {
        if let Some(board) = board_at(report, round, player.start) {
            boards.push(board)?;
        }
    }
    Ok(boards)
}

// The board of a player who has the bye, or who is the higher ranked of two.
fn board_at(report: &Report<'_>, round: u8, start: u16) -> Option<RankedBoard>
    requires { 0 < round }
    ensures { result ≡ boards.board_at report.now round start }
{
    let cell = report.cell(start, round);
    if cell == Cell::Bye(Bye::Allocated) {
        return Some(board_of_bye(report, round, start));
    }
    let opponent = cell.opponent()?;
    if ranks_above(report, round, start, opponent) {
        return Some(board_of_two(report, round, start, opponent));
    }
    None
}

// The score of a player before the round, in half points.
fn score_before(report: &Report<'_>, round: u8, start: u16) -> u16
    requires { 0 < round }
    ensures { result ≡ boards.score_before report.now round start }
{
    report.points(start, round - 1)
}

fn ranks_above(report: &Report<'_>, round: u8, one: u16, other: u16) -> bool
    requires { 0 < round }
    ensures { result ≡ boards.ranks_above report.now round one other }
{
    let (mine, theirs) = (
        score_before(report, round, one),
        score_before(report, round, other),
    );
    theirs < mine || (mine == theirs && one < other)
}

// The board of a player who has the bye.
#[tactic(auto, unfolding(crate::specs::Boards::board_of_bye))]
fn board_of_bye(report: &Report<'_>, round: u8, start: u16) -> RankedBoard
    requires { 0 < round }
    ensures { result ≡ boards.board_of_bye report.now round start }
{
    let score = score_before(report, round, start);
    RankedBoard {
        board: (start, 0),
        has_bye: true,
        score,
        both_scores: u32::from(score),
        start,
    }
}

// The board of two players.
#[tactic(auto, unfolding(crate::specs::Boards::board_of_two))]
fn board_of_two(report: &Report<'_>, round: u8, high: u16, low: u16) -> RankedBoard
    requires { 0 < round }
    ensures { result ≡ boards.board_of_two report.now round high low }
{
    let score = score_before(report, round, high);
    let colour = colour_by(
        colour_in(report, round, high),
        colour_in(report, round, low),
    );
    RankedBoard {
        board: with_colour(high, low, colour),
        has_bye: false,
        score,
        both_scores: u32::from(score) + u32::from(score_before(report, round, low)),
        start: high,
    }
}

// The colour that a player's cell of the round says.
fn colour_in(report: &Report<'_>, round: u8, start: u16) -> Option<Colour>
    requires { 0 < round }
    ensures { result ≡ boards.colour_in report.now round start }
{
    report.cell(start, round).colour()
}

// The colour of the higher ranked of two players by what both cells say, their own first.
fn colour_by(own: Option<Colour>, other: Option<Colour>) -> Colour
    ensures { result ≡ boards.colour_by own other }
{
    match (own, other) {
        (Some(Colour::Black), None | Some(Colour::White)) | (None, Some(Colour::White)) =>
            Colour::Black,
        _ => Colour::White,
    }
}

// White and black, where the higher ranked of two players has a colour.
fn with_colour(high: u16, low: u16, colour: Colour) -> Board
    ensures { result ≡ boards.with_colour high low colour }
{
    match colour {
        Colour::White => (high, low),
        Colour::Black => (low, high),
    }
}
