// The report of an ending.

ghost use Rattle.std.specs.Prelude.{◌≡◌, IfOk};
ghost use Rattle.deploy_histories.specs.Events.{progress};
ghost use Rattle.deploy_core.specs.Endings.{IsTrueEnding};
ghost use Rattle.deploy_core.specs.Names.{name_of};
ghost use Rattle.deployment_reports.specs.Lines.{EndsWithOutputs};
ghost use Rattle.deployment_reports.specs.Sayings.{success_line, AreTasks, Says, SaysFailure};
ghost use Rattle.deployment_reports.specs.Reports.{status_of};
ghost use Rattle.lock_rules.specs.declared.cause.Cause.TheVariants.{Circular};

use crate::dropping::{letting_go, run_out};
use crate::lines::with_outputs;
use crate::sayings::{cause_of, failure, success_line};
use arm_value::{Bytes, OutOfMemory};
use command_reports::Report;
use deploy_core::{Board, Ending};
use lock_rules::{Cause, Tasks};
use std::alloc::Global;
use task_standings::{RootOutput, Standings};

// The report with this line, and the lines of the outputs after it.
fn listed(alloc: Global, line: Bytes, outputs: Vec<RootOutput>) -> Result<Report, OutOfMemory>
    ensures says { IfOk result (λ r. EndsWithOutputs line outputs.items r.text) }
    ensures status { IfOk result (λ r. r.status ≡ 0) }
{
    match with_outputs(alloc, line, outputs.as_slice()) {
        Ok(text) => Ok(letting_go(Report { text, status: 0 }, outputs)),
        Err(_) => run_out(outputs),
    }
}

// The report of a deployment that succeeded.
fn success(alloc: Global, name: &str, outputs: Vec<RootOutput>) -> Result<Report, OutOfMemory>
    ensures says { IfOk result (λ r. EndsWithOutputs (success_line name.now) outputs.items r.text) }
    ensures status { IfOk result (λ r. r.status ≡ 0) }
{
    match success_line(alloc, name) {
        Ok(line) => listed(alloc, line, outputs),
        Err(_) => run_out(outputs),
    }
}

// The report of a deployment that failed for a cause, which is of these tasks.
fn failed<S: Standings>(
    alloc: Global,
    board: &Board<S>,
    name: &str,
    why: Cause,
    tasks: &[u32],
) -> Result<Report, OutOfMemory>
    requires { AreTasks (S.planned board.now.0) tasks.now }
    ensures says { IfOk result (λ r. SaysFailure (name_of S.titled (S.planned board.now.0)) name.now why tasks.now
        r.text) }
    ensures status { IfOk result (λ r. r.status ≡ 3) }
{
    match failure(alloc, board, name, &why, tasks) {
        Ok(text) => Ok(letting_go(Report { text, status: 3 }, why)),
        Err(_) => run_out(why),
    }
}

// The report of a deployment in which these tasks need one another.
fn circular<S: Standings>(
    alloc: Global,
    board: &Board<S>,
    name: &str,
    tasks: Vec<u32>,
) -> Result<Report, OutOfMemory>
    requires { AreTasks (S.planned board.now.0) tasks.items }
    ensures says { IfOk result (λ r. SaysFailure (name_of S.titled (S.planned board.now.0)) name.now
        (Circular tasks.items) tasks.items r.text) }
    ensures status { IfOk result (λ r. r.status ≡ 3) }
{
    match Vec::from_slice(alloc, tasks.as_slice()) {
        Ok(copied) => {
            let why = Cause::Circular(Tasks::from_vec(copied));
            let report = failed(alloc, board, name, why, tasks.as_slice());
            letting_go(report, tasks)
        }
        Err(_) => run_out(tasks),
    }
}

/// The report of the ending of a board's deployment, which has this name.
pub fn report<S: Standings>(
    alloc: Global,
    board: &Board<S>,
    name: &str,
    ending: Ending,
) -> Result<Report, OutOfMemory>
    requires { IsTrueEnding S.tells (S.planned board.now.0) (progress board.now.1.events) ending }
    ensures says { IfOk result (λ r. Says (name_of S.titled (S.planned board.now.0)) name.now ending r.text) }
    ensures status { IfOk result (λ r. r.status ≡ status_of ending) }
{
    // Its clause says that the history is legal, so that what was refused is a task.
    board.history();
    match ending {
        Ending::Succeeded(outputs) => success(alloc, name, outputs),
        Ending::Refused(task, code) => failed(alloc, board, name, Cause::Refused(code), &[task]),
        Ending::Faulty(task, fault) => failed(alloc, board, name, cause_of(fault), &[task]),
        Ending::Circular(tasks) => circular(alloc, board, name, tasks),
    }
}
