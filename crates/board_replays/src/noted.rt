// Recorded answers.

use arm_value::Value;
use provider_trait::Answer;

/// A recorded answer.
#[derive(Drop)]
pub struct Noted {
    /// The number of the task.
    pub task: u32,
    /// The number of the worker that the task was given to.
    pub worker: u32,
    /// The body of its Begin, null for a deletion.
    pub body: Value,
    /// The answer.
    pub answer: Answer,
}

/// Why a board does not go on after recorded answers.
#[derive(Drop)]
pub enum BoardFault {
    /// This many answers follow, and not with the next one.
    BadAnswer(usize),
    /// Out of memory.
    OutOfMemory,
}
