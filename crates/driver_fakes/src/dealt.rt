// What a scripted dealer deals, and its steps.

ghost use Rattle.std.specs.Prelude.{◌≡◌, ◌<◌, ◌≤◌, ◌+◌, ◌^◌, ◌||◌, ◌++◌, ◌∷◌, [], length, replicate, IfOk, OnOk, OnErr};
ghost use Rattle.std.specs.Vec.{vec_capacity};
ghost use Rattle.dealer_trait.specs.Steps.{begin};
ghost use Rattle.driver_fakes.specs.Dealing.{dealt};
ghost use Rattle.driver_fakes.specs.Stages.{is_refused};
ghost use Rattle.driver_fakes.specs.declared.stage.Stage.TheVariants.{Waiting};

use crate::stage::Stage;
use arm_value::{OutOfMemory, Text};
use dealer_trait::DealerStep;
use provider_trait::{Answer, Job, JobParts};
use std::alloc::{AllocError, Global};

// Copies of the id and of the version of a job.
fn copy_names(alloc: Global, job: &Job) -> Result<(Text, Text), OutOfMemory>
    ensures { IfOk result (λ p. (p.0 ≡ job.now.id) × (p.1 ≡ job.now.api)) }
{
    let id = job.id().copy(alloc)?;
    match job.api().copy(alloc) {
        Ok(api) => Ok((id, api)),
        Err(_) => run_out(id),
    }
}

// The job as that of this task and this worker.
pub(crate) fn dealt(alloc: Global, job: &Job, task: u32, worker: u32) -> Result<Job, OutOfMemory>
    ensures { IfOk result (λ j. j ≡ dealt job.now task worker) }
{
    let act = job.act();
    let body = job.body().copy(alloc)?;
    match copy_names(alloc, job) {
        Ok((id, api)) => Job::new(
            alloc,
            JobParts {
                task,
                worker,
                act,
                id,
                api,
                body,
            },
        ),
        Err(_) => run_out(body),
    }
}

// Whether something was refused, after this answer.
pub(crate) fn has_refused(answer: &Answer, before: bool) -> bool
    ensures { result ≡ (is_refused answer.now || before) }
{
    match answer {
        Answer::Stored(_) => before,
        Answer::Gone => before,
        Answer::Refused(_) => true,
    }
}

// So many tasks that wait.
pub(crate) fn waiting(alloc: Global, count: usize) -> Result<Vec<Stage>, OutOfMemory>
    ensures { IfOk result (λ v. v.items ≡ replicate count Waiting) }
{
    vec![in alloc; Stage::Waiting; count]
}

// Adds a step, in room that was taken before.
pub(crate) fn push_step(steps: &mut Vec<DealerStep>, step: DealerStep)
    requires { length steps.old.items + 1 ≤ vec_capacity steps.old }
    ensures steps { steps.new.items ≡ steps.old.items ++ step ∷ [] }
    ensures capacity { vec_capacity steps.old ≤ vec_capacity steps.new }
{
    match steps.push(step) {
        Ok(()) => {}
        Err(_) => unreachable!(),
    }
}

// Adds a Begin, and takes the room for its end and for those of so many open ones.
pub(crate) fn push_begin(
    steps: &mut Vec<DealerStep>,
    opened: usize,
    job: Job,
) -> Result<(), OutOfMemory>
    requires { opened + 2 < 2 ^ 64 }
    ensures steps { OnOk result (steps.new.items ≡ steps.old.items ++ begin job ∷ []) }
    ensures room { OnOk result (length steps.new.items + (opened + 1) ≤ vec_capacity steps.new) }
    ensures same { OnErr result (steps.new.items ≡ steps.old.items) }
    ensures capacity { vec_capacity steps.old ≤ vec_capacity steps.new }
{
    match steps.reserve(opened + 2) {
        Ok(()) => {
            push_step(steps, DealerStep::Begin(job));
            Ok(())
        }
        Err(_) => run_out(job),
    }
}

/// Out of memory; the part is dropped.
pub(crate) fn run_out<T: Drop, R: Drop>(_part: T) -> Result<R, OutOfMemory>
    ensures { IfOk result (λ _. ⊥) }
{
    Err(AllocError)
}
