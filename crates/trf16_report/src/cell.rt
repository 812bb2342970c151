// What one round holds for one player: a cell of the report's crosstable.
ghost use Rattle.std.specs.Prelude.{◌≡◌, ◌≤◌};

/// The colour of the pieces.
#[derive(Clone, Copy, PartialEq, Eq)]
pub enum Colour {
    White,
    Black,
}

/// A round without an opponent, for which points may be given (TRF16: `H`, `F`, `U`, `Z`).
#[derive(Clone, Copy, PartialEq)]
pub enum Bye {
    /// `H`: a requested bye of half a point.
    Half,
    /// `F`: a requested bye of a full point.
    Full,
    /// `U`: the pairing-allocated bye.
    Allocated,
    /// `Z`: a known absence, without points.
    Zero,
}

/// How a game ended for the player of the cell.
#[derive(Clone, Copy, PartialEq)]
pub enum GameOutcome {
    /// 2 half points.
    Win,
    /// 1 half point.
    Draw,
    /// No half points.
    Loss,
}

/// Opponent, colour and result of a player in a round. An opponent is named by a start rank, 1 to 9999.
#[derive(Clone, Copy, PartialEq)]
pub enum Cell {
    /// Nothing is said of the round.
    Blank,
    /// A round without an opponent.
    Bye(Bye),
    /// A game that was played; it is rated or not (`1`, `=`, `0` or `W`, `D`, `L`).
    Game {
        opponent: u16,
        colour: Colour,
        rated: bool,
        got: GameOutcome,
    },
    /// A game that was not played, won (`+`) or lost (`-`); the colour may be left out.
    Forfeit {
        opponent: u16,
        colour: Option<Colour>,
        won: bool,
    },
    /// A game without a result yet.
    Unfinished {
        opponent: u16,
        colour: Colour,
    },
}

impl Cell {
    ghost use Rattle.trf16_report.specs.Sheet.{game_points, half_points, opponent_in_cell, colour_in_cell};

    /// The half points of a cell with an opponent: a win and a forfeit win give 2, a draw gives 1, everything else
    /// none. A cell without an opponent gives none here.
    pub fn game_points(&self) -> u16
        ensures value { result ≡ game_points self.now }
        ensures few { result ≤ 2 }
    {
        match self {
            Cell::Game {
                got: GameOutcome::Win,
                ..
            }
            | Cell::Forfeit { won: true, .. } => 2,
            Cell::Game {
                got: GameOutcome::Draw,
                ..
            } => 1,
            _ => 0,
        }
    }

    /// The half points of the round, if the pairing-allocated bye `U` gives `bye`, 0 to 2: `F` gives 2, `H` gives 1,
    /// `Z` and a blank give none, and a cell with an opponent gives its game points.
    pub fn half_points(&self, bye: u16) -> u16
        requires { bye ≤ 2 }
        ensures value { result ≡ half_points bye self.now }
        ensures few { result ≤ 2 }
    {
        match self {
            Cell::Bye(Bye::Half) => 1,
            Cell::Bye(Bye::Full) => 2,
            Cell::Bye(Bye::Allocated) => bye,
            _ => self.game_points(),
        }
    }

    /// The opponent's start rank, if the cell names one.
    pub fn opponent(&self) -> Option<u16>
        ensures { result ≡ opponent_in_cell self.now }
    {
        match self {
            Cell::Game { opponent, .. }
            | Cell::Forfeit { opponent, .. }
            | Cell::Unfinished { opponent, .. } => Some(*opponent),
            Cell::Blank | Cell::Bye(_) => None,
        }
    }

    /// The colour, if the cell names one.
    pub fn colour(&self) -> Option<Colour>
        ensures { result ≡ colour_in_cell self.now }
    {
        match self {
            Cell::Game { colour, .. } | Cell::Unfinished { colour, .. } => Some(*colour),
            Cell::Forfeit { colour, .. } => *colour,
            Cell::Blank | Cell::Bye(_) => None,
        }
    }
}
