// Why entries are refused: the first entry that cannot be put, or the rule on two players that is broken then.
ghost use Rattle.std.specs.Prelude.{◌≡◌};
ghost use Rattle.entries.specs.declared.fault.EntryFault.TheVariants.{OutOfMemory};

use std::alloc::{AllocError, AllocFailed};
use thiserror::Error;
use trf16_report::Fault;

/// Why entries are refused. Rounds count from 1; a player is named by a start rank.
#[derive(Debug, Clone, Copy, Error)]
pub enum EntryFault {
    /// No round in front of this one was paired, or no report has it.
    #[error("round {round} is not reached")]
    NotReached { round: u8 },
    /// No player of the report has this start rank.
    #[error("player {player} is not known")]
    NotKnown { player: u16 },
    /// Two entries of one round name this player.
    #[error("player {player} is named twice")]
    NamedTwice { player: u16 },
    /// A bye is asked for in a round in which the player has a game.
    #[error("player {player} has a game in round {round}")]
    HasGame { player: u16, round: u8 },
    /// The result of a game is entered for a player who has none.
    #[error("player {player} has no game in round {round}")]
    NoGame { player: u16, round: u8 },
    /// The game would have a result, or none yet, and the forfeit that stands there says no colour.
    #[error("player {player} has no colour in round {round}")]
    NoColour { player: u16, round: u8 },
    /// A cell says something else.
    #[error("player {player} has a cell in round {round}")]
    HasCell { player: u16, round: u8 },
    /// The report that comes of it is refused.
    #[error("{0}")]
    Refused(Fault),
    /// Memory was refused.
    #[error("out of memory")]
    OutOfMemory,
}

impl From<AllocError> for EntryFault {
    ghost from_gives = { λ _ e. e ≡ OutOfMemory };

    fn from(_e: AllocError) -> EntryFault {
        EntryFault::OutOfMemory
    }
}

impl<T: Drop> From<AllocFailed<T>> for EntryFault {
    ghost from_gives = { λ _ e. e ≡ OutOfMemory };

    fn from(_e: AllocFailed<T>) -> EntryFault {
        EntryFault::OutOfMemory
    }
}
