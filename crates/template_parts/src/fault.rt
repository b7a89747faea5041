// Why a template, or what is given for its parameters, is refused.
ghost use Rattle.std.specs.Prelude.{◌≡◌, IfOk};

use crate::limit::Which;
use arm_value::{Path, Text};
use std::alloc::{AllocError, AllocFailed, Global};
use thiserror::Error;

/// Why a value states no template, or no given parameters.
#[derive(Debug, Drop, Error)]
pub enum TemplateFault {
    /// A member that is needed is missing; the path is that of the member.
    #[error("a member is missing at `{0}`")]
    Missing(Path),
    /// The part at this path has another form than templates have.
    #[error("wrong form at `{0}`")]
    WrongForm(Path),
    /// This quantity has this number, which is beyond its limit.
    #[error("beyond a limit")]
    Limit(Which, u64),
    /// The text at this path spells no expression, or one that calls a function that is not there, with too few or too
    /// many arguments, or that names a parameter or a variable that is not there.
    #[error("bad expression at `{0}`")]
    BadExpression(Path),
    /// The text at this path is in a variable or a default, and its expression calls `reference`.
    #[error("a reference in a variable at `{0}`")]
    ReferenceInVariable(Path),
    /// Out of memory.
    #[error("out of memory")]
    OutOfMemory,
}

impl From<AllocError> for TemplateFault {
    ghost use Rattle.template_parts.specs.declared.fault.TemplateFault.TheVariants.{OutOfMemory};

    ghost from_gives = { λ _ e. e ≡ OutOfMemory };

    fn from(_refused: AllocError) -> TemplateFault {
        TemplateFault::OutOfMemory
    }
}

impl<T: Drop> From<AllocFailed<T>> for TemplateFault {
    ghost use Rattle.template_parts.specs.declared.fault.TemplateFault.TheVariants.{OutOfMemory};

    ghost from_gives = { λ _ e. e ≡ OutOfMemory };

    fn from(_refused: AllocFailed<T>) -> TemplateFault {
        TemplateFault::OutOfMemory
    }
}

/// Why the values that are given do not suit the parameters of a template. Each has the name of the parameter, an
/// extra one as it was given, every other as the template spells it.
#[derive(Debug, Drop, Error)]
pub enum BindFault {
    /// The template has no parameter of this name.
    #[error("ExtraParameter {0}")]
    ExtraParameter(Text),
    /// The parameter has no default, and no value was given.
    #[error("MissingParameter {0}")]
    MissingParameter(Text),
    /// The value is of another type, or nests above 100.
    #[error("WrongType {0}")]
    WrongType(Text),
    /// The value is not among those that are allowed.
    #[error("NotAllowed {0}")]
    NotAllowed(Text),
    /// The value, or its length, is beyond a bound.
    #[error("OutOfBounds {0}")]
    OutOfBounds(Text),
    /// Out of memory.
    #[error("out of memory")]
    OutOfMemory,
}

impl From<AllocError> for BindFault {
    ghost use Rattle.template_parts.specs.declared.fault.BindFault.TheVariants.{OutOfMemory};

    ghost from_gives = { λ _ e. e ≡ OutOfMemory };

    fn from(_refused: AllocError) -> BindFault {
        BindFault::OutOfMemory
    }
}

impl BindFault {
    /// The same fault again.
    pub fn copy(&self, alloc: Global) -> Result<BindFault, AllocError>
        ensures { IfOk result (λ f. f ≡ self.now) }
    {
        match self {
            BindFault::ExtraParameter(name) => Ok(BindFault::ExtraParameter(name.copy(alloc)?)),
            BindFault::MissingParameter(name) => Ok(BindFault::MissingParameter(name.copy(alloc)?)),
            BindFault::WrongType(name) => Ok(BindFault::WrongType(name.copy(alloc)?)),
            BindFault::NotAllowed(name) => Ok(BindFault::NotAllowed(name.copy(alloc)?)),
            BindFault::OutOfBounds(name) => Ok(BindFault::OutOfBounds(name.copy(alloc)?)),
            BindFault::OutOfMemory => Ok(BindFault::OutOfMemory),
        }
    }
}
