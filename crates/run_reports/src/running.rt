// A board is run, and it is reported how the deployment has ended.

ghost use Rattle.std.specs.Prelude.{◌≡◌, ◌<◌, ◌≤◌, [], map, vec_len, vec_items};
ghost use Rattle.deploy_core.specs.Past.{event_of};
ghost use Rattle.worker_crew.specs.Driven.{HasNoJobs};
ghost use Rattle.deploy_core.specs.Names.{name_of};
ghost use Rattle.run_reports.specs.Sides.{sides};
ghost use Rattle.run_reports.specs.Reported.{IsReported, surroundings};

use crate::laws::{answers_were_given, seats_have_sides};
use crate::outcome::Outcome;
use arm_value::OutOfMemory;
use command_reports::{Fault, Report, fault_report};
use deploy_core::Board;
use deployment_reports::report;
use deployment_runs::{RunFault, run_to_end};
use provider_trait::Provider;
use std::alloc::{AllocError, Global};
use std::sync::Wait;
use std::thread::Threads;
use task_standings::Standings;
use worker_crew::Seat;

// What came of the deployment of a board, of which this is reported.
fn outcome<S: Standings>(report: Result<Report, OutOfMemory>, board: Board<S>) -> Outcome
    ensures report { result.report ≡ report }
    ensures history { map event_of result.history.items ≡ board.1.events }
{
    Outcome {
        report,
        history: board.into_history(),
    }
}

/// Runs the board, on which nothing has happened, and reports how the deployment of this name has ended, or that a
/// provider failed. The history is that of the board. It may wait.
///
/// There are 1 to 4,294,967,295 seats, numbered from 0; none has a job. The same seats come back in their order, none
/// with a job.
pub fn run_board<R: Threads + Wait + Sync, S: Standings, P: Provider>(
    rt: &R,
    alloc: Global,
    board: Board<S>,
    name: &str,
    seats: &mut Vec<Seat<P>>,
) -> Outcome
    requires few { (0 < vec_len seats.old) × (vec_len seats.old ≤ 4294967295) }
    requires free { HasNoJobs (vec_items seats.old) }
    requires nothing { board.1.events ≡ [] }
    ensures free { HasNoJobs (vec_items seats.new) }
    ensures reported { IsReported (surroundings P.may P.tells S.tells
        (sides P.faults P.calls (vec_items seats.old)) (sides P.faults P.calls (vec_items seats.new)))
        (name_of S.titled (S.planned board.0)) name.now (S.planned board.0) result }
{
    answers_were_given::<P>();
    seats_have_sides::<P>();
    let mut board = board;
    match run_to_end(rt, alloc, &mut board, seats) {
        Ok(ending) => {
            let report = report(alloc, &board, name, ending);
            outcome(report, board)
        }
        Err(RunFault::Provider(seat)) => outcome(fault_report(alloc, Fault::Provider(seat)), board),
        Err(RunFault::OutOfMemory) => outcome(Err(AllocError), board),
    }
}
