// The position of the scope that a task enters or leaves.
ghost use Rattle.std.specs.Prelude.{◌≡◌, ℕ, List, IfOk, Some};
ghost use Rattle.reading.specs.World.{Each};
ghost use Rattle.plan_table.specs.Whole.{IsLaid};
ghost use Rattle.point_states.specs.Plans.{IsTaskIn};
ghost use Rattle.task_aims.specs.Aims.{place_text};

use arm_value::{OutOfMemory, Text};
use plan_positions::scope_position;
use point_states::{Plan, Task};
use std::alloc::Global;

/// The position of the scope that the task of a number enters or leaves; that of the root is empty.
pub fn place_of(alloc: Global, plan: &Plan, task: u32) -> Result<Text, OutOfMemory>
    requires laid { IsLaid plan.now.start.register.table }
    requires of_table { Each (IsTaskIn plan.now.start.register.table) plan.now.tasks.items }
    requires scope { (t : List ℕ) × (place_text plan.now task ≡ Some t) }
    ensures { IfOk result (λ t. place_text plan.now task ≡ Some t) }
{
    match &plan.tasks[task as usize] {
        Task::Enter(frame) => scope_position(alloc, &plan.start.register.table, *frame),
        Task::Leave(frame) => scope_position(alloc, &plan.start.register.table, *frame),
        Task::Put(_, _, _) => unreachable!(),
        Task::Delete(_) => unreachable!(),
    }
}
