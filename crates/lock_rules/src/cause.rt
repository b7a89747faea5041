// Why deployments fail.

ghost use Rattle.std.specs.Prelude.{◌≡◌, ◌++◌, chars, codes, IfOk};
ghost use Rattle.lock_rules.specs.BindFaults.{fault_text};
ghost use Rattle.lock_rules.specs.Causes.{code_of, message_of};
ghost use Rattle.lock_rules.specs.Spaced.{spaced};
ghost use Rattle.lock_rules.specs.declared.cause.Cause.TheVariants.{Circular, Locked, Parameter};

use crate::bind_fault::fault_text;
use crate::lock::Lock;
use crate::parts::{joined, run_out};
use crate::spacing::spaced;
use arm_value::{ListOf, OutOfMemory, Path, Text};
use std::alloc::Global;
use template_parts::BindFault;

/// The numbers of tasks.
pub type Tasks = ListOf<u32>;

/// Why a deployment has failed.
#[derive(Drop)]
pub enum Cause {
    /// This lock forbids what a task is to do.
    Locked(Lock),
    /// The text at this path has no value.
    NoValue(Path),
    /// A value that is given at this path does not suit a parameter or an output.
    Parameter(Path, BindFault),
    /// The provider refused, with this code.
    Refused(Text),
    /// Each of these tasks needs the next, and the last needs the first.
    Circular(Tasks),
}

impl Cause {
    /// An equal cause.
    pub fn copy(&self, alloc: Global) -> Result<Cause, OutOfMemory>
        ensures { IfOk result (λ cause. cause ≡ self.now) }
    {
        match self {
            Cause::Locked(lock) => copy_locked(alloc, lock),
            Cause::NoValue(path) => Ok(Cause::NoValue(path.copy(alloc)?)),
            Cause::Parameter(path, fault) => copy_parameter(alloc, path, fault),
            Cause::Refused(code) => Ok(Cause::Refused(code.copy(alloc)?)),
            Cause::Circular(tasks) => copy_circular(alloc, tasks),
        }
    }

    /// The code of the cause. It takes no memory.
    pub fn code(&self) -> &str
        ensures { chars result.now ≡ code_of self.now }
    {
        match self {
            Cause::Locked(_) => "ScopeLocked",
            Cause::NoValue(_) => "NoValue",
            Cause::Parameter(_, _) => "InvalidParameter",
            Cause::Refused(code) => code.as_str(),
            Cause::Circular(_) => "CircularDependency",
        }
    }

    /// The message of the cause, by the names of the tasks that it is of: of `Circular` those of its
    /// list, in its order, else that of the task that failed.
    pub fn message(&self, alloc: Global, names: &[Text]) -> Result<Text, OutOfMemory>
        ensures { IfOk result (λ text. text ≡ message_of (spaced names.now) self.now) }
    {
        let names = spaced(alloc, names)?;
        match self {
            Cause::Locked(lock) => locked(alloc, names, lock),
            Cause::NoValue(path) => and_text(alloc, names, ": ", path.as_str()),
            Cause::Parameter(_, fault) => unsuited(alloc, names, fault),
            Cause::Refused(_) => Ok(names),
            Cause::Circular(_) => Ok(names),
        }
    }
}

// Copies of both parts.
fn copy_parameter(alloc: Global, path: &Path, fault: &BindFault) -> Result<Cause, OutOfMemory>
    ensures { IfOk result (λ cause. cause ≡ Parameter path.now fault.now) }
{
    let path = path.copy(alloc)?;
    match fault.copy(alloc) {
        Ok(fault) => Ok(Cause::Parameter(path, fault)),
        Err(_) => run_out(path),
    }
}

// A copy of the lock.
fn copy_locked(alloc: Global, lock: &Lock) -> Result<Cause, OutOfMemory>
    ensures { IfOk result (λ cause. cause ≡ Locked lock.now) }
{
    Ok(Cause::Locked(lock.copy(alloc)?))
}

// A copy of the numbers.
fn copy_circular(alloc: Global, tasks: &Tasks) -> Result<Cause, OutOfMemory>
    ensures { IfOk result (λ cause. cause ≡ Circular tasks.now) }
{
    let tasks = Vec::from_slice(alloc, tasks.as_slice())?;
    Ok(Cause::Circular(Tasks::from_vec(tasks)))
}

// The names, and another text after them.
fn and_text(alloc: Global, names: Text, between: &str, text: &str) -> Result<Text, OutOfMemory>
    ensures { IfOk result (λ t. t ≡ names ++ (chars between.now ++ chars text.now)) }
{
    joined(alloc, names.as_str(), between, text)
}

// The message of a lock that forbids what the task of this name is to do.
fn locked(alloc: Global, names: Text, lock: &Lock) -> Result<Text, OutOfMemory>
    ensures { IfOk result (λ t. t ≡ message_of names (Locked lock.now)) }
{
    match lock.id(alloc) {
        Ok(id) => and_text(alloc, names, " by ", id.as_str()),
        Err(_) => run_out(names),
    }
}

// The message of a value that does not suit a parameter.
fn unsuited(alloc: Global, names: Text, fault: &BindFault) -> Result<Text, OutOfMemory>
    ensures { IfOk result (λ t. t ≡ names ++ (codes ": " ++ fault_text fault.now)) }
{
    match fault_text(alloc, fault) {
        Ok(text) => and_text(alloc, names, ": ", text.as_str()),
        Err(_) => run_out(names),
    }
}
