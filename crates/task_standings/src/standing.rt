// How tasks stand.

use arm_value::{Path, Text, Value};
use provider_trait::Act;
use template_parts::{BindFault, ValueType};

/// What a task does.
#[derive(Clone, Copy, Debug, PartialEq, Eq)]
pub enum Kind {
    /// It enters a scope.
    Enter,
    /// It puts a resource.
    Put,
    /// It deletes a resource.
    Delete,
    /// It leaves a scope.
    Leave,
}

/// How a task stands of which no Begin is open, which is not done, and whose needs at the start are done.
#[derive(Drop)]
pub enum Standing {
    /// It is ready, with this body: that of a put, and null for every other task.
    Ready(Value),
    /// A value of it waits for a cell which this task gives, and that task is not done.
    Waits(u32),
    /// A value of it is none.
    Stuck,
}

/// Why a task that needs nothing more is not ready.
#[derive(Drop)]
pub enum TaskFault {
    /// The text at this path has no value.
    NoValue(Path),
    /// The value at this path does not suit a parameter or an output.
    Unsuited(Path, BindFault),
}

/// Why a task that is not done cannot begin at the end of a deployment.
#[derive(Drop)]
pub enum Failing {
    /// It needs nothing more, and this is its fault.
    Faulty(TaskFault),
    /// It needs this task, which is not done either.
    Needs(u32),
}

/// What a put or a deletion is for.
#[derive(Drop)]
pub struct Aim {
    /// What the provider is asked to do.
    pub act: Act,
    /// The id of the resource, with its letters as they are spelled.
    pub id: Text,
    /// The version of the resource's type, empty for a deletion.
    pub api: Text,
}

/// An output of the root of a deployment.
#[derive(Drop)]
pub struct RootOutput {
    /// Its name, with its letters as they are spelled.
    pub name: Text,
    /// Its type.
    pub kind: ValueType,
    /// Its value.
    pub value: Value,
}
