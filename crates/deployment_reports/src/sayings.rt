// What is said of a failure.

ghost use Rattle.std.specs.Prelude.{◌≡◌, encode_utf8_all, IfOk};
ghost use Rattle.lock_rules.specs.Causes.{code_of, message_of};
ghost use Rattle.lock_rules.specs.Spaced.{spaced};
ghost use Rattle.deploy_core.specs.Names.{name_of};
ghost use Rattle.deployment_reports.specs.Sayings.{cause_of, failure_line, success_line, AreTasks, SaysFailure};

use crate::names::task_names;
use arm_value::{Bytes, OutOfMemory, Text};
use deploy_core::Board;
use lock_rules::Cause;
use std::alloc::Global;
use task_standings::{Standings, TaskFault};

/// Why a deployment has failed of which a task has this fault.
pub(crate) fn cause_of(fault: TaskFault) -> Cause
    ensures { result ≡ cause_of fault }
{
    match fault {
        TaskFault::NoValue(path) => Cause::NoValue(path),
        TaskFault::Unsuited(path, why) => Cause::Parameter(path, why),
    }
}

/// The first line of a deployment that succeeded.
pub(crate) fn success_line(alloc: Global, name: &str) -> Result<Bytes, OutOfMemory>
    ensures { IfOk result (λ t. t ≡ success_line name.now) }
{
    let line = format!(in alloc; "Succeeded {name}\n")?;
    Ok(Bytes::from_vec(line.into_bytes()))
}

// The line of a deployment that failed.
fn failure_line(alloc: Global, name: &str, code: &str, message: &str) -> Result<Bytes, OutOfMemory>
    ensures { IfOk result (λ t. t ≡ failure_line name.now code.now message.now) }
{
    let line = format!(in alloc; "Failed {name}: {code}: {message}\n")?;
    Ok(Bytes::from_vec(line.into_bytes()))
}

// The line of a deployment that failed for a cause, which is of the tasks of these names.
fn failure_of(alloc: Global, name: &str, why: &Cause, names: &[Text]) -> Result<Bytes, OutOfMemory>
    ensures { IfOk result (λ t. t ≡ failure_line name.now (encode_utf8_all (code_of why.now))
        (encode_utf8_all (message_of (spaced names.now) why.now))) }
{
    let message = why.message(alloc, names)?;
    failure_line(alloc, name, why.code(), message.as_str())
}

/// What is said of a deployment that failed for a cause, which is of these tasks.
pub(crate) fn failure<S: Standings>(
    alloc: Global,
    board: &Board<S>,
    name: &str,
    why: &Cause,
    tasks: &[u32],
) -> Result<Bytes, OutOfMemory>
    requires { AreTasks (S.planned board.now.0) tasks.now }
    ensures { IfOk result (SaysFailure (name_of S.titled (S.planned board.now.0)) name.now why.now tasks.now) }
{
    let names = task_names(alloc, board, tasks)?;
    failure_of(alloc, name, why, names.as_slice())
}
