// Why a report is refused: the first rule that it breaks, and where.
ghost use Rattle.std.specs.Prelude.{◌≡◌};
ghost use Rattle.trf16_report.specs.declared.fault.Fault.TheVariants.{OutOfMemory};

use std::alloc::{AllocError, AllocFailed};
use std::fmt;
use thiserror::Error;

/// What a report has too much of.
#[derive(Debug, Clone, Copy)]
pub enum Excess {
    /// More than 1,048,576 bytes.
    Bytes,
    /// More than `MOST_PLAYERS` players.
    Players,
    /// More than `MOST_ROUNDS` rounds.
    Rounds,
}

impl fmt::Display for Excess {
    fn fmt<W: fmt::Write>(&self, f: &mut fmt::Formatter<W>) -> fmt::Result {
        let what = match self {
            Excess::Bytes => "bytes",
            Excess::Players => "players",
            Excess::Rounds => "rounds",
        };
        write!(f, "{what}")
    }
}

/// Why a report is refused. Lines, columns and rounds count from 1.
#[derive(Debug, Clone, Copy, Error)]
pub enum Fault {
    /// A start rank or a points field that is no number of its kind.
    #[error("line {line}: bad number")]
    BadNumber { line: usize },
    /// A start rank that an earlier line has.
    #[error("line {line}: duplicate")]
    Duplicate { line: usize },
    /// A column that must be blank is not.
    #[error("line {line}: column {column} must be blank")]
    Misaligned { line: usize, column: usize },
    /// Opponent, colour and result of a round that do not fit together.
    #[error("line {line}: round {round}: bad cell")]
    BadCell { line: usize, round: usize },
    /// A line `XXR`, `XXC`, `XXZ` or `XXP` whose words are not those of its kind.
    #[error("line {line}: bad extension")]
    BadExtension { line: usize },
    /// The report is larger than this program reads.
    #[error("too many {0}")]
    TooMany(Excess),
    /// No line of the kind `001`.
    #[error("no players")]
    NoPlayers,
    /// A player's opponent in a round is no player of the report.
    #[error("player {player} round {round}: no such opponent")]
    NoSuchOpponent { player: u16, round: usize },
    /// A player is their own opponent.
    #[error("player {player} round {round}: own opponent")]
    SelfOpponent { player: u16, round: usize },
    /// A player's opponent does not name them in that round.
    #[error("player {player} round {round}: not mutual")]
    NotMutual { player: u16, round: usize },
    /// Two who meet do not have opposite colours.
    #[error("player {player} round {round}: colours")]
    Colours { player: u16, round: usize },
    /// The results of two who meet do not fit together.
    #[error("player {player} round {round}: results")]
    Results { player: u16, round: usize },
    /// A points field is not the sum of the player's points.
    #[error("player {player}: points")]
    Points { player: u16 },
    /// Memory was refused.
    #[error("out of memory")]
    OutOfMemory,
}

impl From<AllocError> for Fault {
    ghost from_gives = { λ _ e. e ≡ OutOfMemory };

    fn from(_e: AllocError) -> Fault {
        Fault::OutOfMemory
    }
}

impl<T: Drop> From<AllocFailed<T>> for Fault {
    ghost from_gives = { λ _ e. e ≡ OutOfMemory };

    fn from(_e: AllocFailed<T>) -> Fault {
        Fault::OutOfMemory
    }
}
