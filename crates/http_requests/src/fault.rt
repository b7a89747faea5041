// Why a body asks nothing.

ghost use Rattle.std.specs.Prelude.{◌≡◌};

use std::alloc::AllocError;
use thiserror::Error;

/// Why a body asks nothing.
#[derive(Clone, Copy, Debug, Error, PartialEq, Eq)]
pub enum BodyFault {
    /// It is no JSON value of the form that is stated for it.
    #[error("the body has not its form")]
    BadBody,
    /// Out of memory.
    #[error("out of memory")]
    OutOfMemory,
}

impl From<AllocError> for BodyFault {
    ghost use Rattle.std.specs.Prelude.{◌≡◌};
    ghost use Rattle.http_requests.specs.declared.fault.BodyFault.TheVariants.{OutOfMemory};

    ghost from_gives = { λ _ e. e ≡ OutOfMemory };

    fn from(_refused: AllocError) -> BodyFault {
        BodyFault::OutOfMemory
    }
}

// The answer; the part is dropped.
pub(crate) fn letting_go<T: Drop, R: Drop>(answer: R, _part: T) -> R
    ensures { result ≡ answer }
{
    answer
}
