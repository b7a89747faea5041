// A board is driven to its end.

ghost use Rattle.std.specs.Prelude.{◌≡◌, ◌<◌, ◌≤◌, ℕ, IfOk, IfErr, [], vec_len, vec_items, slice_index_or};
ghost use Rattle.arm_edges.specs.Faults.{Rose};
ghost use Rattle.deploy_histories.specs.Events.{progress};
ghost use Rattle.deploy_histories.specs.Legal.{IsLegal, HasEnded};
ghost use Rattle.deploy_core.specs.Endings.{IsTrueEnding};
ghost use Rattle.deploy_core.specs.Steps.{steps_of, until_crash};
ghost use Rattle.seat_calls.specs.Dones.{Made};
ghost use Rattle.worker_crew.specs.Driven.{HasNoJobs};
ghost use Rattle.deployment_runs.specs.Runs.{HasRun, by_seat};
ghost use Rattle.deployment_runs.specs.declared.fault.RunFault.TheVariants.{OutOfMemory};

use crate::fault::RunFault;
use dealer_trait::NoBook;
use deploy_core::{Board, Ending};
use provider_trait::Provider;
use std::alloc::Global;
use std::sync::Wait;
use std::thread::Threads;
use task_standings::Standings;
use worker_crew::{DriveFault, Seat, drive};

/// Deals the tasks of the board to the seats until the deployment has ended, and returns how. Nothing is noted. It may
/// wait.
///
/// There are 1 to 4,294,967,295 seats, numbered from 0; none has a job, and no Begin of the board is open. Whatever is
/// returned, the same seats come back in their order, none with a job, and no Begin is open.
///
/// # Errors
///
/// `Provider` with the number of a seat whose provider failed: its count of faults rose. `OutOfMemory` where memory for
/// the seats' channels, the board or a provider ran out. After the first fault nothing more is begun, and the jobs that
/// are open come in.
pub fn run_to_end<R: Threads + Wait + Sync, S: Standings, P: Provider>(
    rt: &R,
    alloc: Global,
    board: &mut Board<S>,
    seats: &mut Vec<Seat<P>>,
) -> Result<Ending, RunFault>
    requires few { (0 < vec_len seats.old) × (vec_len seats.old ≤ 4294967295) }
    requires free { HasNoJobs (vec_items seats.old) }
    requires fresh { steps_of (S.planned board.old.0) board.old.1.events ≡ [] }
    ensures free { HasNoJobs (vec_items seats.new) }
    ensures planned { S.planned board.new.0 ≡ S.planned board.old.0 }
    ensures past { until_crash board.new.1.events ≡ until_crash board.old.1.events }
    ensures legal { IsLegal (S.planned board.old.0) board.new.1.events }
    ensures run { HasRun (Made P.may P.tells P.calls P.faults)
        (steps_of (S.planned board.old.0) board.new.1.events) (vec_items seats.old) (vec_items seats.new) }
    ensures ending { IfOk result (λ e. HasEnded (S.planned board.old.0) (progress board.new.1.events)
        × IsTrueEnding S.tells (S.planned board.old.0) (progress board.new.1.events) e) }
    ensures failed { (k : ℕ) → result ≡ by_seat k → (k < vec_len seats.old)
        × ((s : _) (t : _) → Rose (P.faults (slice_index_or (vec_items seats.old) k s).provider)
        (P.faults (slice_index_or (vec_items seats.new) k t).provider)) }
{
    let driven = drive(rt, alloc, board, seats, &mut NoBook);
    board.history();
    match driven {
        Ok(()) => ended(alloc, board),
        Err(DriveFault::Provider(seat)) => Err(RunFault::Provider(seat)),
        Err(DriveFault::OutOfMemory) => Err(RunFault::OutOfMemory),
        Err(DriveFault::Book(_)) => unreachable!(),
    }
}

// How the deployment has ended.
fn ended<S: Standings>(alloc: Global, board: &mut Board<S>) -> Result<Ending, RunFault>
    requires { HasEnded (S.planned board.old.0) (progress board.old.1.events) }
    ensures planned { S.planned board.new.0 ≡ S.planned board.old.0 }
    ensures past { board.new.1 ≡ board.old.1 }
    ensures ending { IfOk result (IsTrueEnding S.tells (S.planned board.old.0) (progress board.old.1.events)) }
    ensures memory { IfErr result (λ e. e ≡ OutOfMemory) }
{
    match board.end(alloc) {
        Ok(ending) => Ok(ending),
        Err(_) => Err(RunFault::OutOfMemory),
    }
}
