// What a dealer keeps of its steps.

ghost use Rattle.std.specs.Prelude.{◌≡◌, ◌<◌, ◌+◌, ◌++◌, ◌∷◌, [], length};
ghost use Rattle.std.specs.Vec.{vec_capacity};
ghost use Rattle.crew_times.specs.Marks.{step_of, steps_of};

use provider_trait::{Answer, Job};
use std::snapshot::Snapshot;

/// What a dealer keeps of a step. A job that is begun is kept for proofs alone, and takes no bytes.
#[derive(Drop)]
pub enum Mark {
    /// The job was begun.
    Begun(Snapshot<Job>),
    /// The task has its answer.
    Answered(u32, Answer),
    /// The task was given back.
    GivenBack(u32),
}

/// Adds a mark to a list that has room for it.
pub fn add(marks: &mut Vec<Mark>, mark: Mark)
    requires { length marks.old.items < vec_capacity marks.old }
    ensures steps { steps_of marks.new.items ≡ steps_of marks.old.items ++ step_of mark ∷ [] }
    ensures len { length marks.new.items ≡ length marks.old.items + 1 }
    ensures capacity { vec_capacity marks.new ≡ vec_capacity marks.old }
{
    marks.push_reserved(mark);
}
