//! What is reported of boards.
ghost use Rattle.deploy_histories.specs.Events.{progress};
ghost use Rattle.deploy_histories.specs.Legal.{HasEnded};

use crate::parts::nothing;
use arm_value::OutOfMemory;
use command_reports::Report;
use dealer_trait::Next;
use deploy_core::Board;
use deployment_reports::report;
use std::alloc::Global;
use task_standings::Standings;

// The report of a board that has ended.
fn ended<S: Standings>(
    alloc: Global,
    board: &mut Board<S>,
    name: &str,
) -> Result<Report, OutOfMemory>
    requires { HasEnded (S.planned board.old.0) (progress board.old.1.events) }
{
    let ending = board.end(alloc)?;
    report(alloc, board, name, ending)
}

/// The report of the board of the deployment of this name, which is asked for a job first; none where it has not ended,
/// or there is no memory.
pub fn reported<S: Standings>(alloc: Global, board: &mut Board<S>, name: &str) -> Option<Report> {
    match board.next(alloc, 7) {
        Ok(Next::End) => ended(alloc, board, name).ok(),
        next => nothing(next),
    }
}
