// Why a function is not called, or has no answer.
ghost use Rattle.std.specs.Prelude.{◌≡◌};
ghost use Rattle.arm_functions.specs.declared.fault.FunctionFault.TheVariants.{OutOfMemory};

use std::alloc::{AllocError, AllocFailed};
use thiserror::Error;

/// Why a call has no answer.
#[derive(Clone, Copy, Debug, Error, PartialEq, Eq)]
pub enum FunctionFault {
    /// There is no such function, or its value does not follow from its arguments alone.
    #[error("no function of this name")]
    UnknownFunction,
    /// There are too few arguments, or too many.
    #[error("wrong number of arguments")]
    WrongCount,
    #[error("out of memory")]
    OutOfMemory,
}

impl From<AllocError> for FunctionFault {
    ghost from_gives = { λ _ e. e ≡ OutOfMemory };

    fn from(_fault: AllocError) -> FunctionFault {
        FunctionFault::OutOfMemory
    }
}
