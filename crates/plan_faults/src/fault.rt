// Why a deployment has no plan.
ghost use Rattle.std.specs.Prelude.{◌≡◌};

use arm_ids::Key;
use arm_value::{Path, Paths, Text};
use std::alloc::{AllocError, AllocFailed};
use template_parts::{BindFault, Which};
use thiserror::Error;

/// Why a deployment has no plan. Where several reasons hold, any of them is returned.
#[derive(Debug, Drop, Error)]
pub enum PlanFault {
    /// The count, the condition, the name or the element of `dependsOn` at this path reads the state at this key.
    #[error("the value at `{0}` must be known at the start")]
    NotStartKnown(Path, Key),
    /// What is at this path has no value: one of these, or a parameter or a variable. No key can be formed of a name.
    #[error("no value at `{0}`")]
    NoValue(Path),
    /// The instances at these positions have one key.
    #[error("one key at `{0}` and `{1}`")]
    SameKey(Text, Text),
    /// This quantity has this number, which is beyond its limit.
    #[error("beyond a limit")]
    Limit(Which, u64),
    /// The element of `dependsOn` at this path names nothing.
    #[error("nothing is named at `{0}`")]
    UnknownDependency(Path),
    /// The element of `dependsOn` at this path names resources with different keys.
    #[error("two keys are named at `{0}`")]
    AmbiguousDependency(Path),
    /// The parameters, variables and outputs at these paths need one another: each the next, and the last the first.
    #[error("parameters, variables or outputs need one another")]
    Circle(Paths),
    /// The value at this path breaks its rule, or nothing is given for the parameter there.
    #[error("{1} at `{0}`")]
    Bind(Path, BindFault),
    /// Out of memory.
    #[error("out of memory")]
    OutOfMemory,
}

impl From<AllocError> for PlanFault {
    ghost use Rattle.plan_faults.specs.declared.fault.PlanFault.TheVariants.{OutOfMemory};

    ghost from_gives = { λ _ e. e ≡ OutOfMemory };

    fn from(_refused: AllocError) -> PlanFault {
        PlanFault::OutOfMemory
    }
}

impl<T: Drop> From<AllocFailed<T>> for PlanFault {
    ghost use Rattle.plan_faults.specs.declared.fault.PlanFault.TheVariants.{OutOfMemory};

    ghost from_gives = { λ _ e. e ≡ OutOfMemory };

    fn from(_refused: AllocFailed<T>) -> PlanFault {
        PlanFault::OutOfMemory
    }
}
