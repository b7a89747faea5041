// The steps of dealers.

use provider_trait::{Answer, Job};

/// A step of a dealer. Tasks are named by their numbers.
#[derive(Drop)]
pub enum DealerStep {
    /// A job is begun.
    Begin(Job),
    /// The job that was begun of this task has this answer.
    Answer(u32, Answer),
    /// The job that was begun of this task has no answer.
    Back(u32),
}
