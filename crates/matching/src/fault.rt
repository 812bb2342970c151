// Why nothing was found.
ghost use Rattle.std.specs.Prelude.{◌≡◌};
ghost use Rattle.matching.specs.declared.fault.Fault.TheVariants.{OutOfMemory};

use std::alloc::AllocError;

/// Why a search gives nothing.
#[derive(Debug, Clone, Copy)]
pub enum Fault {
    /// Memory was refused.
    OutOfMemory,
    /// No step was left.
    Stopped,
}

impl From<AllocError> for Fault {
    ghost from_gives = { λ _ e. e ≡ OutOfMemory };

    fn from(_e: AllocError) -> Fault {
        Fault::OutOfMemory
    }
}
