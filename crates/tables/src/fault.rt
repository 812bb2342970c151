// Why a report has no standings.
ghost use Rattle.std.specs.Prelude.{◌≡◌};
ghost use Rattle.tables.specs.declared.fault.TieFault.TheVariants.{OutOfMemory};

use std::alloc::{AllocError, AllocFailed};
use thiserror::Error;

/// Why a report has no standings. Lines and rounds count from 1.
#[derive(Debug, Clone, Copy, Error)]
pub enum TieFault {
    /// A game has no result yet.
    #[error("player {player} round {round}: unfinished")]
    Unfinished { player: u16, round: usize },
    /// A line `XXS`.
    #[error("line {line}: unsupported")]
    Unsupported { line: usize },
    /// Memory was refused.
    #[error("out of memory")]
    OutOfMemory,
}

impl From<AllocError> for TieFault {
    ghost from_gives = { λ _ e. e ≡ OutOfMemory };

    fn from(_e: AllocError) -> TieFault {
        TieFault::OutOfMemory
    }
}

impl<T: Drop> From<AllocFailed<T>> for TieFault {
    ghost from_gives = { λ _ e. e ≡ OutOfMemory };

    fn from(_e: AllocFailed<T>) -> TieFault {
        TieFault::OutOfMemory
    }
}
