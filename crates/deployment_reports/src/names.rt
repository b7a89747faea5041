// The names of tasks.

ghost use Rattle.std.specs.Prelude.{◌≡◌, Some, map, IfOk};
ghost use Rattle.deploy_core.specs.Names.{name_of};
ghost use Rattle.deployment_reports.specs.Sayings.{AreTasks};

use arm_value::{OutOfMemory, Text};
use deploy_core::Board;
use std::alloc::Global;
use task_standings::Standings;

/// The names of these tasks, in their order.
pub(crate) fn task_names<S: Standings>(
    alloc: Global,
    board: &Board<S>,
    tasks: &[u32],
) -> Result<Vec<Text>, OutOfMemory>
    requires { AreTasks (S.planned board.now.0) tasks.now }
    ensures { IfOk result (λ ns. map (name_of S.titled (S.planned board.now.0)) tasks.now ≡ map Some ns.items) }
{
    let mut names = Vec::new(alloc);
    for task in tasks {
        names.push(board.task_name(alloc, *task)?)?;
    }
    Ok(names)
}
