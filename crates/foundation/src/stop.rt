// Why a reader stops before the end.
ghost use Rattle.std.specs.Prelude.{◌≡◌};
ghost use Rattle.foundation.specs.declared.stop.Stop.TheVariants.{OutOfMemory};

use std::alloc::{AllocError, AllocFailed};

/// Why a part of a text or of a file is not read.
#[derive(Drop)]
pub enum Stop {
    /// No accepted text continues this way.
    Refused,
    /// Memory was refused.
    OutOfMemory,
}

impl From<AllocError> for Stop {
    ghost from_gives = { λ _ e. e ≡ OutOfMemory };

    fn from(_refused: AllocError) -> Stop {
        Stop::OutOfMemory
    }
}

impl<T: Drop> From<AllocFailed<T>> for Stop {
    ghost from_gives = { λ _ e. e ≡ OutOfMemory };

    fn from(_refused: AllocFailed<T>) -> Stop {
        Stop::OutOfMemory
    }
}
