// Why an id is refused.
ghost use Rattle.std.specs.Prelude.{◌≡◌};

use std::alloc::{AllocError, AllocFailed};
use thiserror::Error;

/// Why a text, or a place with a type and a name, makes no key or no scope.
#[derive(Clone, Copy, Debug, Error, PartialEq, Eq)]
pub enum IdFault {
    /// The subscription, the group, or a segment of the type or the name is empty.
    #[error("a segment is empty")]
    EmptySegment,
    /// The type has not one segment more than the name.
    #[error("the type has not one segment more than the name")]
    SegmentsDiffer,
    /// The text is no resource id, or the id of no scope.
    #[error("the text is no resource id")]
    NotAnId,
    /// An allocation was refused.
    #[error("out of memory")]
    OutOfMemory,
}

impl From<AllocError> for IdFault {
    ghost use Rattle.arm_ids.specs.declared.fault.IdFault.TheVariants.{OutOfMemory};

    ghost from_gives = { λ _ e. e ≡ OutOfMemory };

    fn from(_fault: AllocError) -> IdFault {
        IdFault::OutOfMemory
    }
}

impl<T: Drop> From<AllocFailed<T>> for IdFault {
    ghost use Rattle.arm_ids.specs.declared.fault.IdFault.TheVariants.{OutOfMemory};

    ghost from_gives = { λ _ e. e ≡ OutOfMemory };

    fn from(_fault: AllocFailed<T>) -> IdFault {
        IdFault::OutOfMemory
    }
}

/// Why an entry is not put among those that are held.
#[derive(Clone, Copy, Debug, Error, PartialEq, Eq)]
pub enum PutFault {
    /// The entry's id is the id of no key.
    #[error("the entry's id is no resource id")]
    NotAnId,
    /// An allocation was refused.
    #[error("out of memory")]
    OutOfMemory,
}

impl From<AllocError> for PutFault {
    ghost use Rattle.arm_ids.specs.declared.fault.PutFault.TheVariants.{OutOfMemory};

    ghost from_gives = { λ _ e. e ≡ OutOfMemory };

    fn from(_fault: AllocError) -> PutFault {
        PutFault::OutOfMemory
    }
}
