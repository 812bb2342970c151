// What of a round of a player looks like a mistake.
ghost use Rattle.std.specs.Prelude.{◌≡◌, ◌<◌, ◌∷◌, [], MatchOption};
ghost use Rattle.std.specs.List.{list_any};
ghost use Rattle.trf16_report.specs.Prelude.{cells_of, is_unfinished};
ghost use Rattle.report_notes.specs.PlayerRounds as rounds;
ghost use Rattle.report_notes.specs.NoteOf.{round_left_notes};

use crate::note::RoundNote;
use trf16_report::{Bye, Cell, Report, cell_at, front, is_unfinished};

/// What is left to tell of a round of a player, in this order.
#[derive(Clone, Copy)]
pub(crate) struct RoundLeft {
    // that the game has no result
    pub(crate) result: Option<RoundNote>,
    // that the opponent is met again
    pub(crate) meeting: Option<RoundNote>,
    // that it is another bye
    pub(crate) bye: Option<RoundNote>,
    // that the game gives less than a point
    pub(crate) points: Option<RoundNote>,
    // that there is no cell
    pub(crate) cell: Option<RoundNote>,
}

impl RoundLeft {
    /// Nothing.
    pub(crate) fn nothing() -> RoundLeft
        ensures { round_left_notes result ≡ [] }
    {
        RoundLeft {
            result: None,
            meeting: None,
            bye: None,
            points: None,
            cell: None,
        }
    }
}

/// The first of what is left, and what is left behind it.
pub(crate) fn next_of_round(left: RoundLeft) -> Option<(RoundNote, RoundLeft)>
    ensures { MatchOption result (round_left_notes left ≡ [])
        (λ x. round_left_notes left ≡ x.0 ∷ round_left_notes x.1) }
{
    if let Some(note) = left.result {
        return Some((
            note,
            RoundLeft {
                result: None,
                ..left
            },
        ));
    }
    if let Some(note) = left.meeting {
        return Some((
            note,
            RoundLeft {
                meeting: None,
                ..left
            },
        ));
    }
    if let Some(note) = left.bye {
        return Some((note, RoundLeft { bye: None, ..left }));
    }
    if let Some(note) = left.points {
        return Some((
            note,
            RoundLeft {
                points: None,
                ..left
            },
        ));
    }
    let note = left.cell?;
    Some((note, RoundLeft { cell: None, ..left }))
}

/// All that is to be told of a round of a player.
pub(crate) fn round_left(report: &Report<'_>, start: u16, round: u8) -> RoundLeft
    requires { 0 < round }
    ensures { round_left_notes result ≡ rounds.round_notes report.now start round }
{
    let cells = cells_of(report, start);
    let cell = cell_at(cells, round);
    RoundLeft {
        result: is_unfinished(&cell).then_some(RoundNote::NoResult),
        meeting: meeting_note(cells, round),
        bye: bye_note(cells, round),
        points: points_note(report, &cell, round),
        cell: cell_note(report, start, cells, round),
    }
}

// The cells of the player with a start rank.
fn cells_of<'a>(report: &'a Report<'_>, start: u16) -> &'a [Cell]
    ensures { result.now ≡ cells_of report.now.players start }
{
    match report.player(start) {
        Some(player) => &player.cells,
        None => &[],
    }
}

// The cells of the rounds before a given one.
fn cells_before(cells: &[Cell], round: u8) -> &[Cell]
    requires { 0 < round }
    ensures { result.now ≡ rounds.cells_before round cells.now }
{
    front(cells, round - 1)
}

// The opponent of a game, with a result or without.
fn opponent_of_game(cell: &Cell) -> Option<u16>
    ensures { result ≡ rounds.opponent_of_game cell.now }
{
    match cell {
        Cell::Game { opponent, .. } | Cell::Unfinished { opponent, .. } => Some(*opponent),
        _ => None,
    }
}

fn is_game_against(cell: &Cell, player: u16) -> bool
    ensures { result ≡ rounds.is_game_against player cell.now }
{
    match opponent_of_game(cell) {
        Some(opponent) => opponent == player,
        None => false,
    }
}

// That the game of a round is against a player whom an earlier one was against too.
fn meeting_note(cells: &[Cell], round: u8) -> Option<RoundNote>
    requires { 0 < round }
    ensures { result ≡ rounds.meeting_note cells.now round }
{
    let player = opponent_of_game(&cell_at(cells, round))?;
    if is_met(cells_before(cells, round), player) {
        Some(RoundNote::MeetsAgain { player })
    } else {
        None
    }
}

fn is_met(cells: &[Cell], player: u16) -> bool
    ensures { result ≡ list_any (rounds.is_game_against player) cells.now }
{
    cells.iter().any(|cell| is_game_against(cell, player))
}

// By C.2 such a cell bars its player from the pairing-allocated bye.
fn bars_bye(cell: &Cell) -> bool
    ensures { result ≡ rounds.bars_bye cell.now }
{
    match cell {
        Cell::Bye(Bye::Full | Bye::Allocated) => true,
        Cell::Forfeit { won, .. } => *won,
        _ => false,
    }
}

pub(crate) fn is_allocated(cell: &Cell) -> bool
    ensures { result ≡ rounds.is_allocated cell.now }
{
    match cell {
        Cell::Bye(Bye::Allocated) => true,
        _ => false,
    }
}

// That a round is the pairing-allocated bye, and C.2 does not allow it behind the earlier rounds.
fn bye_note(cells: &[Cell], round: u8) -> Option<RoundNote>
    requires { 0 < round }
    ensures { result ≡ rounds.bye_note cells.now round }
{
    if is_allocated(&cell_at(cells, round)) && has_bar(cells_before(cells, round)) {
        Some(RoundNote::AnotherBye)
    } else {
        None
    }
}

fn has_bar(cells: &[Cell]) -> bool
    ensures { result ≡ list_any rounds.bars_bye cells.now }
{
    cells.iter().any(|cell| bars_bye(cell))
}

// That a game that was played gives both players together less than a point.
fn points_note(report: &Report<'_>, cell: &Cell, round: u8) -> Option<RoundNote>
    requires { 0 < round }
    ensures { result ≡ rounds.points_note report.now cell.now round }
{
    let Cell::Game { opponent, .. } = cell else {
        return None;
    };
    // in half points
    match cell.game_points() + report.cell(*opponent, round).game_points() {
        0 => Some(RoundNote::NoPoint),
        1 => Some(RoundNote::HalfPoint),
        _ => None,
    }
}

fn is_filled(cell: &Cell) -> bool
    ensures { result ≡ rounds.is_filled cell.now }
{
    match cell {
        Cell::Blank => false,
        _ => true,
    }
}

// That nothing is said of the last round that was paired, though something of an earlier one, and no line `XXZ` names
// the player.
fn cell_note(report: &Report<'_>, start: u16, cells: &[Cell], round: u8) -> Option<RoundNote>
    requires { 0 < round }
    ensures { result ≡ rounds.cell_note report.now start cells.now round }
{
    if round != report.rounds_played() || is_filled(&cell_at(cells, round)) {
        return None;
    }
    if has_filled(cells_before(cells, round)) && !report.is_named_absent(start) {
        Some(RoundNote::NoCell)
    } else {
        None
    }
}

fn has_filled(cells: &[Cell]) -> bool
    ensures { result ≡ list_any rounds.is_filled cells.now }
{
    cells.iter().any(|cell| is_filled(cell))
}
