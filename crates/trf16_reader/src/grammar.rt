// Which cell an opponent, a colour and a result spell: the nine rows of the cell grammar.
ghost use Rattle.std.specs.Prelude.{◌≡◌};
ghost use Rattle.trf16_report.specs.Fields.{words};
ghost use Rattle.trf16_report.specs.Cells.{mark_in, colour_of, bye_cell, forfeit_cell, outcome_of, game_cell};
ghost use Rattle.trf16_report.specs.Cells.{cell_of, opponent_in, cell_from};

use trf16_report::{Bye, Cell, Colour, GameOutcome, next_word, number_of};

// What stands in one column, a letter in upper case; a missing column is blank, and a character of several bytes is no
// mark.
fn mark_in(column: &[u8]) -> Option<u8>
    ensures { result ≡ mark_in column.now }
{
    match column {
        [] => Some(b' '),
        [byte] => Some(byte.to_ascii_uppercase()),
        _ => None,
    }
}

fn colour_of(mark: u8) -> Option<Colour>
    ensures { result ≡ colour_of mark }
{
    match mark {
        b'W' => Some(Colour::White),
        b'B' => Some(Colour::Black),
        _ => None,
    }
}

// Without an opponent.
fn bye_cell(result_mark: u8) -> Option<Cell>
    ensures { result ≡ bye_cell result_mark }
{
    match result_mark {
        b' ' => Some(Cell::Blank),
        b'H' => Some(Cell::Bye(Bye::Half)),
        b'F' => Some(Cell::Bye(Bye::Full)),
        b'U' => Some(Cell::Bye(Bye::Allocated)),
        b'Z' => Some(Cell::Bye(Bye::Zero)),
        _ => None,
    }
}

// A game that was not played.
fn forfeit_cell(opponent: u16, colour: Option<Colour>, result_mark: u8) -> Option<Cell>
    ensures { result ≡ forfeit_cell opponent colour result_mark }
{
    let won = match result_mark {
        b'+' => true,
        b'-' => false,
        _ => return None,
    };
    Some(Cell::Forfeit {
        opponent,
        colour,
        won,
    })
}

// The first part tells that the game is rated; `W`, `D` and `L` are the results of games that are not.
fn outcome_of(result_mark: u8) -> Option<(bool, GameOutcome)>
    ensures { result ≡ outcome_of result_mark }
{
    match result_mark {
        b'1' => Some((true, GameOutcome::Win)),
        b'=' => Some((true, GameOutcome::Draw)),
        b'0' => Some((true, GameOutcome::Loss)),
        b'W' => Some((false, GameOutcome::Win)),
        b'D' => Some((false, GameOutcome::Draw)),
        b'L' => Some((false, GameOutcome::Loss)),
        _ => None,
    }
}

// With an opponent and a colour.
fn game_cell(opponent: u16, colour: Colour, result_mark: u8) -> Option<Cell>
    ensures { result ≡ game_cell opponent colour result_mark }
{
    if result_mark == b' ' {
        return Some(Cell::Unfinished { opponent, colour });
    }
    match outcome_of(result_mark) {
        Some((rated, got)) => Some(Cell::Game {
            opponent,
            colour,
            rated,
            got,
        }),
        None => forfeit_cell(opponent, Some(colour), result_mark),
    }
}

fn cell_of(opponent: Option<u16>, colour_mark: u8, result_mark: u8) -> Option<Cell>
    ensures { result ≡ cell_of opponent colour_mark result_mark }
{
    let is_no_colour = colour_mark == b'-' || colour_mark == b' ';
    match (opponent, is_no_colour) {
        (None, true) => bye_cell(result_mark),
        (None, false) => None,
        (Some(opponent), true) => forfeit_cell(opponent, None, result_mark),
        (Some(opponent), false) => game_cell(opponent, colour_of(colour_mark)?, result_mark),
    }
}

// The opponent that a field names; none if it is blank or 0, and no answer if it is no number.
fn opponent_in(field: &[u8]) -> Option<Option<u16>>
    ensures { result ≡ opponent_in (words field.now) }
{
    let Some((word, rest)) = next_word(field) else {
        return Some(None);
    };
    if next_word(rest).is_some() {
        return None;
    }
    match number_of(word)? {
        0 => Some(None),
        opponent => Some(Some(opponent)),
    }
}

/// The cell that three fields spell, if they spell one.
pub(crate) fn cell_from(opponent: &[u8], colour: &[u8], outcome: &[u8]) -> Option<Cell>
    ensures { result ≡ cell_from opponent.now colour.now outcome.now }
{
    let opponent = opponent_in(opponent)?;
    let colour = mark_in(colour)?;
    cell_of(opponent, colour, mark_in(outcome)?)
}
