// Why a round could not be paired.

use std::alloc::{AllocError, AllocFailed};
use thiserror::Error;

/// Why a round could not be paired, whatever its players.
#[derive(Debug, Clone, Copy, PartialEq, Eq, Error)]
pub enum PairFault {
    /// Memory was refused.
    #[error("out of memory")]
    OutOfMemory,
}

impl From<AllocError> for PairFault {
    fn from(_e: AllocError) -> PairFault {
        PairFault::OutOfMemory
    }
}

impl From<PairFault> for AllocError {
    fn from(fault: PairFault) -> AllocError {
        match fault {
            PairFault::OutOfMemory => AllocError,
        }
    }
}

impl<T: Drop> From<AllocFailed<T>> for PairFault {
    fn from(_e: AllocFailed<T>) -> PairFault {
        PairFault::OutOfMemory
    }
}
