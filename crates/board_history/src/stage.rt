// How far a task is.

ghost use Rattle.std.specs.Prelude.{◌≡◌, ℕ, IfOk, length, replicate};
ghost use Rattle.board_history.specs.Stages.{stage_at, closed_stage};
ghost use Rattle.board_history.specs.declared.stage.Stage.TheVariants.{Waiting};

use arm_value::OutOfMemory;
use std::alloc::Global;

/// How far a task is, by the places of events in the history.
#[derive(Clone, Copy, Debug, PartialEq, Eq)]
pub(crate) enum Stage {
    /// It was not begun, or it was given back or refused.
    Waiting,
    /// A Begin of it is open, which is at this place.
    Begun(usize),
    /// It is done by the event at this place.
    Done(usize),
}

// The stage of the task.
pub(crate) fn stage_at(stages: &[Stage], task: u32) -> Stage
    ensures { result ≡ stage_at stages.now task }
{
    let task = task as usize;
    if task < stages.len() {
        stages[task]
    } else {
        Stage::Waiting
    }
}

// The stage once a crash has closed what was open.
fn closed(stage: Stage) -> Stage
    ensures { result ≡ closed_stage stage }
{
    match stage {
        Stage::Waiting => Stage::Waiting,
        Stage::Begun(_) => Stage::Waiting,
        Stage::Done(place) => Stage::Done(place),
    }
}

// Closes each open Begin.
pub(crate) fn close_all(stages: &mut [Stage])
    ensures size { length stages.new ≡ length stages.old }
    ensures each { (u : ℕ) → stage_at stages.new u ≡ closed_stage (stage_at stages.old u) }
{
    for task in 0..stages.len() {
        stages[task] = closed(stages[task]);
    }
}

// As many stages, each of a task that waits.
pub(crate) fn waiting(alloc: Global, count: usize) -> Result<Vec<Stage>, OutOfMemory>
    ensures { IfOk result (λ v. v.items ≡ replicate count Waiting) }
{
    vec![in alloc; Stage::Waiting; count]
}
