// The board of a plan.
ghost use Rattle.std.specs.Prelude.{◌≡◌, [], map, IfErr, IfOk};
ghost use Rattle.plan_standings.specs.Planned.{planned_by};
ghost use Rattle.arm_plan.specs.Accepted.{IsAccepted};
ghost use Rattle.plan_standings.specs.Kept.{planned_of, IsNew};
ghost use Rattle.board_replays.specs.Replays.{noted_of, IsBoardFault, IsOut, IsReopened};

use arm_ids::Held;
use arm_plan::Plan;
use arm_value::OutOfMemory;
use board_replays::{BoardFault, Noted};
use deploy_core::Board;
use history_plans::laws::{needs_are_listed, plans_have_histories};
use numbered_plans::laws::plans_have_numbers;
use plan_standings::PlanStandings;
use std::alloc::{AllocError, Global};

// What is known of the plan at its start.
fn first_standings<'p, 'a>(
    alloc: Global,
    plan: &'p Plan<'a>,
    held: &'p Held,
) -> Result<PlanStandings<'p, 'a>, OutOfMemory>
    requires accepted { IsAccepted plan.now held.now }
    ensures { IfOk result (IsNew plan.now held.now) }
{
    plans_have_histories();
    plans_have_numbers();
    match PlanStandings::new(alloc, plan, held)? {
        Some(standings) => Ok(standings),
        None => unreachable!(),
    }
}

// The fault; the part is dropped.
fn dropped<T: Drop>(_part: T, fault: BoardFault) -> BoardFault
    ensures { result ≡ fault }
{
    fault
}

/// The board of a plan that nothing refuses, over what is held, after recorded answers. Without answers nothing has
/// happened; else the history is replayed from them, and then there was a crash.
///
/// # Errors
///
/// `BadAnswer` where the answers do not follow: with how many of them do.
pub fn reopen_board<'p, 'a>(
    alloc: Global,
    plan: &'p Plan<'a>,
    held: &'p Held,
    answers: Vec<Noted>,
) -> Result<Board<PlanStandings<'p, 'a>>, BoardFault>
    requires accepted { IsAccepted plan.now held.now }
    ensures planned { IfOk result (λ b. planned_of b.0 ≡ planned_by plan.now held.now) }
    ensures reopened { IfOk result (λ b. IsReopened (planned_by plan.now held.now) (map noted_of answers.items)
        b.1.events) }
    ensures fault { IfErr result (IsBoardFault (planned_by plan.now held.now) (map noted_of answers.items)) }
{
    needs_are_listed();
    match first_standings(alloc, plan, held) {
        Ok(standings) => Board::open(alloc, standings, plan.needs.as_slice(), answers),
        Err(_) => Err(dropped(answers, BoardFault::OutOfMemory)),
    }
}

// The fault of a board without recorded answers: all of none follow.
fn memory_of(fault: BoardFault) -> OutOfMemory
    requires { IsOut fault }
{
    match fault {
        BoardFault::OutOfMemory => AllocError,
        BoardFault::BadAnswer(_) => unreachable!(),
    }
}

/// The board of a plan that nothing refuses, over what is held, on which nothing has happened.
pub fn open_board<'p, 'a>(
    alloc: Global,
    plan: &'p Plan<'a>,
    held: &'p Held,
) -> Result<Board<PlanStandings<'p, 'a>>, OutOfMemory>
    requires accepted { IsAccepted plan.now held.now }
    ensures planned { IfOk result (λ b. planned_of b.0 ≡ planned_by plan.now held.now) }
    ensures fresh { IfOk result (λ b. b.1.events ≡ []) }
{
    match reopen_board(alloc, plan, held, Vec::new(alloc)) {
        Ok(board) => Ok(board),
        Err(fault) => Err(memory_of(fault)),
    }
}
