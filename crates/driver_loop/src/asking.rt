// Jobs are asked for and handed to free seats.

ghost use Rattle.std.specs.Prelude.{◌≡◌, ◌<◌, ◌≤◌, ◌^◌, ◌++◌, ℕ, List, Ok, Some, length, set, true};
ghost use Rattle.driver_loop.specs.declared.action.Action.{Action};
ghost use Rattle.driver_loop.specs.declared.open_job.OpenJob.{OpenJob};
ghost use Rattle.driver_loop.specs.Actions.{AreHands, if_own};
ghost use Rattle.driver_loop.specs.Moments.{moment};
ghost use Rattle.driver_loop.specs.Runs.{Ran, Tied, IsFor};

use crate::crew::Crew;
use crate::open_job::OpenJob;
use dealer_trait::{Dealer, Next};
use provider_trait::Job;
use std::alloc::{AllocError, Global};
use std::sync::Wait;

/// Asks for a job for each free seat, in order, and sends it there. Returns whether the dealer has
/// come to its end.
pub fn deal<R: Wait, G: Dealer, C: Crew>(
    rt: &R,
    alloc: Global,
    board: &mut G,
    crew: &mut C,
    opens: &mut [Option<OpenJob>],
) -> Result<bool, AllocError>
    requires few { length opens.old ≤ 2 ^ 32 }
    requires seats { C.seats crew.old ≡ length opens.old }
    requires ready { C.is_ready crew.old }
    requires tied { Tied (G.steps board.old) opens.old }
    ensures len { length opens.new ≡ length opens.old }
    ensures seats { C.seats crew.new ≡ length opens.old }
    ensures ready { C.is_ready crew.new }
    ensures stays { G.fixed board.new ≡ G.fixed board.old }
    ensures fixed { C.fixed crew.new ≡ C.fixed crew.old }
    ensures tied { Tied (G.steps board.new) opens.new }
    ensures ran { (course : List Action) × AreHands course
        × Ran (moment (G.steps board.old) (C.received crew.old) (C.sent crew.old) opens.old)
        (moment (G.steps board.new) (C.received crew.new) (C.sent crew.new) opens.new) course }
    ensures end { result ≡ Ok true → G.is_end board.new }
{
    for k in 0..opens.len() {
        if opens[k].is_none() {
            let Ok(worker) = u32::try_from(k) else {
                unreachable!()
            };
            match board.next(alloc, worker)? {
                Next::Begun(job) => hand(rt, crew, opens, worker, job),
                Next::Wait => return Ok(false),
                Next::End => return Ok(true),
            }
        }
    }
    Ok(false)
}

// Sends a job to a free seat.
fn hand<R: Wait, C: Crew>(
    rt: &R,
    crew: &mut C,
    opens: &mut [Option<OpenJob>],
    worker: u32,
    job: Job,
)
    requires seat { worker < length opens.old }
    requires seats { C.seats crew.old ≡ length opens.old }
    requires ready { C.is_ready crew.old }
    ensures opens { (o : OpenJob) × IsFor o job × (opens.new ≡ set opens.old worker (Some o)) }
    ensures seats { C.seats crew.new ≡ C.seats crew.old }
    ensures ready { C.is_ready crew.new }
    ensures fixed { C.fixed crew.new ≡ C.fixed crew.old }
    ensures sent { (k : ℕ) → C.sent crew.new k ≡ C.sent crew.old k ++ if_own k worker job }
    ensures received { C.received crew.new ≡ C.received crew.old }
{
    opens[worker as usize] = Some(OpenJob::of(&job));
    crew.send(rt, worker, job);
}
