// A ready task is begun: its job, and its Begin in the history.

ghost use Rattle.std.specs.Prelude.{◌≡◌, ◌<◌, ℕ, IfOk, Some, is_ok, if◌then◌else◌, slice_get};
ghost use Rattle.arm_value.specs.View.{json};
ghost use Rattle.provider_trait.specs.Act.{FitsAct};
ghost use Rattle.provider_trait.specs.Work.{work_for};
ghost use Rattle.plan_cells.specs.Tasks.{Task};
ghost use Rattle.deploy_histories.specs.Events.{begin, is_waiting, progress};
ghost use Rattle.deploy_histories.specs.Legal.{IsAct};
ghost use Rattle.deploy_histories.specs.Outcome.{target_of};
ghost use Rattle.board_history.specs.Past.{with_event};
ghost use Rattle.board_dealing.specs.Boards.{job_of, IsJobOf};
ghost use Rattle.board_dealing.specs.Looks.{IsReady};

use crate::dropping::run_out;
use arm_value::{OutOfMemory, Value};
use board_history::History;
use provider_trait::{Job, JobParts};
use std::alloc::Global;
use task_standings::{Aim, Standings};

// The job of the task with this body.
fn job(alloc: Global, aim: Aim, task: u32, worker: u32, body: &Value) -> Result<Job, OutOfMemory>
    requires { FitsAct aim.act (json body.now) }
    ensures { IfOk result (λ j. j ≡ job_of (record { act = aim.act; id = aim.id; api = aim.api })
        task worker (json body.now)) }
{
    match body.copy(alloc) {
        Ok(body) => Job::new(
            alloc,
            JobParts {
                task,
                worker,
                act: aim.act,
                id: aim.id,
                api: aim.api,
                body,
            },
        ),
        Err(_) => run_out(aim),
    }
}

// The task is begun by the worker with this body.
fn note(
    history: &mut History,
    job: Job,
    task: u32,
    worker: u32,
    body: Value,
) -> Result<Job, OutOfMemory>
    requires within { task < history.old.count }
    requires waits { (progress history.old.events).status task ≡ is_waiting }
    ensures job { IfOk result (λ j. j ≡ job) }
    ensures history { history.new ≡ (if is_ok result
        then with_event history.old (begin task worker (json body)) else history.old) }
{
    match history.begin(task, worker, body) {
        Ok(()) => Ok(job),
        Err(_) => run_out(job),
    }
}

// Begins the task for this aim.
fn begin_for(
    alloc: Global,
    history: &mut History,
    aim: Aim,
    task: u32,
    worker: u32,
    body: Value,
) -> Result<Job, OutOfMemory>
    requires within { task < history.old.count }
    requires waits { (progress history.old.events).status task ≡ is_waiting }
    requires fits { FitsAct aim.act (json body) }
    ensures job { IfOk result (λ j. j ≡ job_of (record { act = aim.act; id = aim.id; api = aim.api })
        task worker (json body)) }
    ensures history { history.new ≡ (if is_ok result
        then with_event history.old (begin task worker (json body)) else history.old) }
{
    match job(alloc, aim, task, worker, &body) {
        Ok(job) => note(history, job, task, worker, body),
        Err(_) => run_out(body),
    }
}

/// Begins the task for the worker, with this body. After `OutOfMemory` the history is unchanged.
pub fn begin<S: Standings>(
    alloc: Global,
    standings: &S,
    history: &mut History,
    task: u32,
    worker: u32,
    body: Value,
) -> Result<Job, OutOfMemory>
    requires sound { S.sound standings.now }
    requires within { task < history.old.count }
    requires ready { IsReady (S.planned standings.now) (progress history.old.events) task (json body) }
    requires act { (one : Task) → slice_get (S.planned standings.now).tasks task ≡ Some one → IsAct one }
    ensures job { IfOk result (IsJobOf (S.planned standings.now) task worker (json body)) }
    ensures history { history.new ≡ (if is_ok result
        then with_event history.old (begin task worker (json body)) else history.old) }
{
    match standings.aim(alloc, task) {
        Ok(aim) => begin_for(alloc, history, aim, task, worker, body),
        Err(_) => run_out(body),
    }
}
