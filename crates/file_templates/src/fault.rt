//! Why a program has no template.
ghost use Rattle.file_templates.specs.Clauses as spec;

use template_parts::Which;
use thiserror::Error;

/// Why a program has no template.
#[derive(Clone, Copy, PartialEq, Eq, Debug, Error)]
pub enum EmitFault {
    /// A quantity of the template has this number, which is beyond its limit.
    #[error("beyond a limit")]
    Limit(Which, u64),
    /// An expression of the template nests above 64.
    #[error("an expression nests too deep")]
    TooDeep,
    /// Out of memory.
    #[error("out of memory")]
    OutOfMemory,
}

/// The fault; the part is dropped.
pub(crate) fn refuse<T: Drop, R: Drop>(fault: EmitFault, _part: T) -> Result<R, EmitFault>
    ensures { spec.IsRefused fault result }
{
    Err(fault)
}
