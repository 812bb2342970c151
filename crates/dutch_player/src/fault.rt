// Why no further round can be paired from a report.
ghost use Rattle.std.specs.Prelude.{◌≡◌};
ghost use Rattle.dutch_player.specs.declared.fault.FieldFault.TheVariants.{OutOfMemory};

use std::alloc::{AllocError, AllocFailed};
use thiserror::Error;

/// Why no further round can be paired. Lines and rounds count from 1.
#[derive(Debug, Clone, Copy, Error)]
pub enum FieldFault {
    /// A game has no result yet.
    #[error("player {player} round {round}: unfinished")]
    Unfinished { player: u16, round: usize },
    /// A line `XXA` or `XXS`, or `XXC` with the word `rank`.
    #[error("line {line}: unsupported")]
    Unsupported { line: usize },
    /// Neither the caller nor the report names the total of rounds.
    #[error("rounds unknown")]
    RoundsUnknown,
    /// The next round would come after the last one.
    #[error("all rounds are played")]
    RoundsOver,
    /// Memory was refused.
    #[error("out of memory")]
    OutOfMemory,
}

impl From<AllocError> for FieldFault {
    ghost from_gives = { λ _ e. e ≡ OutOfMemory };

    fn from(_e: AllocError) -> FieldFault {
        FieldFault::OutOfMemory
    }
}

impl<T: Drop> From<AllocFailed<T>> for FieldFault {
    ghost from_gives = { λ _ e. e ≡ OutOfMemory };

    fn from(_e: AllocFailed<T>) -> FieldFault {
        FieldFault::OutOfMemory
    }
}
