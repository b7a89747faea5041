// How a value breaks the rule of a parameter or of an output.
ghost use Rattle.std.specs.Prelude.{◌≡◌, None, Some, IfOk};
ghost use Rattle.arm_value.specs.View.{json};
ghost use Rattle.plan_faults.specs.Rules.{fault_of, parameter_fault};
ghost use Rattle.plan_sight.specs.declared.lack.Lack.TheVariants as lack_of;
ghost use Rattle.scope_faults.specs.Faults.{said_of};

use arm_env::stop::let_go;
use arm_value::{OutOfMemory, Path, Text, Value};
use plan_sight::lack::Lack;
use std::alloc::{AllocError, Global};
use task_standings::TaskFault;
use template_parameters::{Breach, first_breach};
use template_parts::{BindFault, Parameter};

// A breach of the rule of the parameter of this name.
fn fault_of(name: Text, breach: Breach) -> BindFault
    ensures { result ≡ fault_of name breach }
{
    match breach {
        Breach::WrongType => BindFault::WrongType(name),
        Breach::NotAllowed => BindFault::NotAllowed(name),
        Breach::OutOfBounds => BindFault::OutOfBounds(name),
    }
}

/// How the value breaks the rule of a parameter, if it does.
pub(crate) fn parameter_fault(
    alloc: Global,
    parameter: &Parameter,
    value: &Value,
) -> Result<Option<BindFault>, OutOfMemory>
    ensures { IfOk result (λ o. o ≡ parameter_fault (json value.now) (Some parameter.now)) }
{
    match first_breach(parameter, value) {
        Some(breach) => Ok(Some(fault_of(parameter.name.copy(alloc)?, breach))),
        None => Ok(None),
    }
}

/// There is no value, unless memory ran out.
pub(crate) fn no_fault(lack: Lack) -> Result<Option<BindFault>, OutOfMemory>
    ensures none { IfOk result (λ o. o ≡ None) }
    ensures memory { lack ≡ lack_of.OutOfMemory → IfOk result (λ _. ⊥) }
{
    match lack {
        Lack::OutOfMemory => Err(AllocError),
        Lack::NotThere => Ok(None),
        Lack::NoValue => Ok(None),
        Lack::Line(_) => Ok(None),
        Lack::State(key) => {
            let_go(key);
            Ok(None)
        }
    }
}

/// What is said of the text at a path.
pub(crate) fn said_of(path: Path, broken: Option<BindFault>) -> TaskFault
    ensures { result ≡ said_of path broken }
{
    match broken {
        Some(fault) => TaskFault::Unsuited(path, fault),
        None => TaskFault::NoValue(path),
    }
}
