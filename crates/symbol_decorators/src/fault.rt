//! Why the loops of a file have no batches in a template.

use std::alloc::AllocError;

/// Why the loops of a file have no batches in a template.
#[derive(Clone, Copy, PartialEq, Eq, Debug)]
pub enum BatchFault {
    /// A batch has more instances than 800: that many.
    TooLarge(u64),
    /// Out of memory.
    OutOfMemory,
}

impl From<AllocError> for BatchFault {
    ghost use Rattle.std.specs.Prelude.{◌≡◌};
    ghost use Rattle.symbol_decorators.specs.declared.fault.BatchFault.TheVariants.{OutOfMemory};

    ghost from_gives = { λ _ e. e ≡ OutOfMemory };

    fn from(_refused: AllocError) -> BatchFault {
        BatchFault::OutOfMemory
    }
}
