// Why nothing was found.
ghost use Rattle.std.specs.Prelude.{◌≡◌};
ghost use Rattle.cheapest.specs.declared.fault.Fault.TheVariants.{OutOfMemory};

use std::alloc::{AllocError, AllocFailed};

/// Why a search gives nothing.
#[derive(Debug, Clone, Copy)]
pub enum Fault {
    /// Memory was refused.
    OutOfMemory,
    /// No step was left.
    Stopped,
    /// There are more than 32,767 vertices, or a sum of costs does not fit.
    TooGreat,
}

impl From<AllocError> for Fault {
    ghost from_gives = { λ _ e. e ≡ OutOfMemory };

    fn from(_e: AllocError) -> Fault {
        Fault::OutOfMemory
    }
}

impl<T: Drop> From<AllocFailed<T>> for Fault {
    ghost from_gives = { λ _ e. e ≡ OutOfMemory };

    fn from(_e: AllocFailed<T>) -> Fault {
        Fault::OutOfMemory
    }
}
