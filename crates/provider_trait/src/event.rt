// What happens in a deployment.

use crate::answer::Answer;
use arm_value::Value;

/// What happens in a deployment. Tasks and workers are named by their numbers.
#[derive(Drop)]
pub enum Event {
    /// The scope of this task is entered.
    Enter(u32),
    /// A task is given to a worker, with this body: the task, the worker, and null for a deletion.
    Begin(u32, u32, Value),
    /// The task that was begun has this answer.
    Answer(u32, Answer),
    /// The task that was begun has no answer.
    Back(u32),
    /// The scope of this task is left.
    Leave(u32),
    /// The service stopped and started again.
    Crash,
}
