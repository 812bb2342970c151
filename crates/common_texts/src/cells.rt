// What a player's cell of a round says, as text.
ghost use Rattle.std.specs.Prelude.{◌≡◌, ◌∷◌, [], Some};
ghost use Rattle.trf16_report.specs.Prelude.{bye_letter, colour_letter, outcome_letter};
ghost use Rattle.common_texts.specs.CellTexts.{game_text, result_mark};

use std::fmt;
use trf16_report::{Bye, Cell, Colour, GameOutcome};

/// What one round holds for a player, shown as opponent, colour and result, with the letters of the report.
#[derive(Drop)]
pub struct RoundOf(pub Cell);

impl fmt::Display for RoundOf {
    ghost output = { λ round. Some (game_text round.0) };

    fn fmt<W: fmt::Write>(&self, f: &mut fmt::Formatter<W>) -> fmt::Result {
        match self.0 {
            Cell::Blank => f.write_str("-"),
            Cell::Bye(bye) => f.write_str(bye_letter(bye)),
            Cell::Game {
                opponent,
                colour,
                rated,
                got,
            } => write!(
                f,
                "{opponent}{}{}",
                colour_letter(Some(colour)),
                outcome_letter(rated, got)
            ),
            Cell::Forfeit {
                opponent,
                colour,
                won,
            } => write!(
                f,
                "{opponent}{}{}",
                colour_letter(colour),
                if won { "+" } else { "-" }
            ),
            Cell::Unfinished { opponent, colour } => {
                write!(f, "{opponent}{}", colour_letter(Some(colour)))
            }
        }
    }
}

/// What a cell says of the result: 1, = or 0 of a game, + or - of a forfeit; nothing if it says none.
pub fn result_mark(cell: Cell) -> &'static str
    ensures { result.now ≡ result_mark cell }
{
    match cell {
        Cell::Game { got, .. } => match got {
            GameOutcome::Win => "1",
            GameOutcome::Draw => "=",
            GameOutcome::Loss => "0",
        },
        Cell::Forfeit { won, .. } => { if won { "+" } else { "-" } }
        Cell::Blank | Cell::Bye(_) | Cell::Unfinished { .. } => "",
    }
}

// H, F, U and Z.
fn bye_letter(bye: Bye) -> &'static str
    ensures { result.now ≡ bye_letter bye ∷ [] }
{
    match bye {
        Bye::Half => "H",
        Bye::Full => "F",
        Bye::Allocated => "U",
        Bye::Zero => "Z",
    }
}

// w, b, or a dash where there is none.
fn colour_letter(colour: Option<Colour>) -> &'static str
    ensures { result.now ≡ colour_letter colour ∷ [] }
{
    match colour {
        None => "-",
        Some(Colour::White) => "w",
        Some(Colour::Black) => "b",
    }
}

// 1, = and 0 of a rated game, W, D and L of one that is not.
fn outcome_letter(rated: bool, got: GameOutcome) -> &'static str
    ensures { result.now ≡ outcome_letter rated got ∷ [] }
{
    match (rated, got) {
        (true, GameOutcome::Win) => "1",
        (true, GameOutcome::Draw) => "=",
        (true, GameOutcome::Loss) => "0",
        (false, GameOutcome::Win) => "W",
        (false, GameOutcome::Draw) => "D",
        (false, GameOutcome::Loss) => "L",
    }
}
