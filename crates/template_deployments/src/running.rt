// A plan is run.

ghost use Rattle.template_deployments.specs.Deploying as spec;

use crate::refusing::refused;
use arm_ids::Held;
use plan_boards::{Plan, open_board};
use plan_outcomes::laws::one_outcome_of_a_plan;
use provider_trait::Provider;
use run_reports::{Outcome, run_board};
use std::alloc::{AllocError, Global};
use std::sync::Wait;
use std::thread::Threads;
use worker_crew::Seat;

/// Runs the plan over what is held, and reports how the deployment has ended, with its history. It may wait.
pub(crate) fn run_plan<R: Threads + Wait + Sync, P: Provider>(
    rt: &R,
    alloc: Global,
    plan: &Plan,
    held: &Held,
    seats: &mut Vec<Seat<P>>,
) -> Outcome
    requires allowed { spec.MayRun plan.now held.now seats.old }
    ensures { spec.HasRun P.may P.tells P.faults P.calls seats.old seats.new result plan.now held.now }
{
    one_outcome_of_a_plan::<P>();
    // Its clauses say that what is held is in order.
    let _length = held.len();
    match open_board(alloc, plan, held) {
        Ok(board) => run_board(rt, alloc, board, plan.place.deployment.as_str(), seats),
        Err(_) => refused(alloc, Err(AllocError)),
    }
}
