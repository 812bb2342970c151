// What an arbiter enters by hand: a result, a bye, or who met whom.
use trf16_report::{Bye, Cell, GameOutcome};

/// The result of a game, as one of its players has it.
#[derive(Clone, Copy, PartialEq)]
pub enum GameResult {
    /// The game was played; it is rated (`1`, `=`, `0`) or not (`W`, `D`, `L`).
    Played { rated: bool, got: GameOutcome },
    /// It was not played, and is won (`+`) or lost (`-`).
    Forfeited { won: bool },
}

/// What is entered of a player in a round. A player is named by a start rank, 1 to 9999.
#[derive(Clone, Copy)]
pub enum Event {
    /// `P:R`: the result of the game that they have.
    Scores(GameResult),
    /// `P:`: their game has no result any more; a bye goes.
    NoResult,
    /// `P:H`, `P:F`, `P:Z`: the bye that they asked for, or that they are absent.
    Asked(Bye),
    /// `P-B`, `P-B:R`: they have White against this player; the score is theirs, if there is one.
    Meets {
        black: u16,
        score: Option<GameResult>,
    },
    /// `P-0`: they have the pairing-allocated bye.
    Allocated,
}

/// A player, and what is entered of them.
#[derive(Clone, Copy)]
pub struct HandEntry {
    /// The start rank.
    pub player: u16,
    pub event: Event,
}

/// How entries are put into a report.
#[derive(Clone, Copy)]
pub struct EntryOptions {
    /// The round of all entries, from 1; if there is none, a bye that was asked for is one of the next round, and every
    /// other entry is one of the last round that was paired.
    pub round: Option<u8>,
    /// If set, a cell that says something else is replaced.
    pub correct: bool,
}

/// A slot of the crosstable: the cell of a player in a round.
#[derive(Clone, Copy)]
pub struct Slot {
    /// The start rank of the player.
    pub player: u16,
    /// The round, from 1.
    pub round: u8,
}

/// A game of a player in a round.
#[derive(Clone, Copy)]
pub struct GameOf {
    pub slot: Slot,
    /// The start rank of the opponent.
    pub opponent: u16,
    /// The result, as the player has it, if there is one.
    pub score: Option<GameResult>,
}

/// A cell that an entry puts into a slot.
#[derive(Clone, Copy)]
pub struct NewCell {
    pub slot: Slot,
    pub cell: Cell,
    /// Set if the entry names the player; otherwise it names the opponent.
    pub named: bool,
}

/// The cells that one entry puts: that of the player whom it names, and perhaps that of the opponent.
#[derive(Clone, Copy)]
pub struct NewCells {
    pub first: NewCell,
    pub second: Option<NewCell>,
}
