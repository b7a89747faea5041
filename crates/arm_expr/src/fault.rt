// Why a text is not read, or an expression not written.

use std::alloc::AllocError;
use thiserror::Error;

/// Why a text is not read as an expression, or an expression is not written. Where several of them
/// hold, the answer is the first in this order.
#[derive(Debug, Drop, Error)]
pub enum ExprFault {
    /// The text has, or would have, more than 24,576 characters.
    #[error("longer than 24576 characters")]
    TooLong,
    /// The text spells no expression.
    #[error("no expression")]
    NotAnExpression,
    /// The expression nests above 64.
    #[error("nested above 64")]
    TooDeep,
    /// Memory was refused.
    #[error("out of memory")]
    OutOfMemory,
}

impl From<AllocError> for ExprFault {
    ghost use Rattle.std.specs.Prelude.{◌≡◌};
    ghost use Rattle.arm_expr.specs.declared.fault.ExprFault.TheVariants.{OutOfMemory};

    ghost from_gives = { λ _ e. e ≡ OutOfMemory };

    fn from(_refused: AllocError) -> ExprFault {
        ExprFault::OutOfMemory
    }
}
