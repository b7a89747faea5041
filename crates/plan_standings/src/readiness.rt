// What the tasks of a plan do, and the readiness of a task.
ghost use Rattle.std.specs.Prelude.{◌≡◌, ◌<◌, ◌≤◌, length, slice_get, option_map, Some, List, ℕ, IfOk, false};
ghost use Rattle.plan_table.specs.Opened.{Opened};
ghost use Rattle.task_aims.specs.Plans.{task_in};
ghost use Rattle.task_standings.specs.Standings.{kind_of, IsStanding, Enters, IsScopeSeen, AreStartNeedsDone, Leaves};
ghost use Rattle.task_aims.specs.Task.TheVariants.{Put, Enter};
ghost use Rattle.task_aims.specs.Numbers.{IsOfTable};
ghost use Rattle.deploy_histories.specs.Events.{progress, is_waiting};
ghost use Rattle.task_aims.specs.Planned.{planned_by};
ghost use Rattle.point_rows.specs.Rows.{known_now};
ghost use Rattle.task_standings.specs.declared.standing.Standing.TheVariants as standing_of;
ghost use Rattle.scope_faults.specs.Entries.{AreTold, IsSettling};
ghost use Rattle.scope_faults.specs.Settling.TheVariants as settling_of;
ghost use Rattle.plan_standings.specs.Waits.{table_of, IsNext, IsAtPoint, HasStates};
ghost use Rattle.plan_standings.specs.Answers.{IsOneMore};
ghost use Rattle.plan_standings.specs.Puts.{IsLookAt, IsBodyless};
ghost use Rattle.plan_standings.specs.Entering.{IsEntryLook, HasMore};
ghost use Rattle.plan_standings.specs.Kept.{IsNoted};

use crate::answering::answer_lack;
use crate::leaving::{Outputs, leave_task};
use arm_ids::Held;
use arm_value::{OutOfMemory, Value};
use board_history::History;
use plan_sight::lack::Lack;
use plan_table::frame::Instance;
use point_rows::later::Later;
use point_values::laws::seen_tasks_are_ready;
use scope_faults::body::told_of_body;
use scope_faults::settling::{Settling, settle};
use std::alloc::Global;
use task_aims::{Numbers, Plan, Task};
use task_standings::{Kind, Standing};

// What the task does.
fn kind_of(task: &Task) -> Kind
    ensures { (os : List Opened) → kind_of (task_in os task.now) ≡ result }
{
    match task {
        Task::Enter(_) => Kind::Enter,
        Task::Put(_, _, _) => Kind::Put,
        Task::Leave(_) => Kind::Leave,
        Task::Delete(_) => Kind::Delete,
    }
}

/// What the task of the number does.
pub(crate) fn kind_at(tasks: &[Task], number: u32) -> Kind
    requires { number < length tasks.now }
    ensures { (os : List Opened) → option_map (λ u. kind_of (task_in os u)) (slice_get tasks.now number) ≡ Some result }
{
    kind_of(&tasks[number as usize])
}

/// How many tasks there are.
pub(crate) fn count_of(tasks: &[Task]) -> u32
    requires { length tasks.now ≤ 4294967295 }
    ensures { result ≡ length tasks.now }
{
    tasks.len() as u32
}

// The readiness of the put of an instance, by what is told of its body; none where a state became known.
fn look_at(
    alloc: Global,
    plan: &Plan,
    numbers: &Numbers,
    held: &Held,
    history: &History,
    later: &mut Later,
    frame: usize,
    instance: Instance,
) -> Result<Option<Standing>, OutOfMemory>
    requires point { IsAtPoint plan.now held.now numbers.now history.now.events later.old }
    requires put { IsOfTable (table_of plan.now) (Put frame instance.resource instance.copy) }
    ensures states { HasStates plan.now held.now history.now.events later.old later.new }
    ensures more { IfOk result (IsOneMore later.old later.new) }
    ensures look { (u : ℕ) → IsNext plan.now held.now history.now.events u (Put frame instance.resource instance.copy)
        → IfOk result (IsLookAt plan.now held.now history.now.events later.old later.new u) }
    ensures stuck { IfOk result (λ o. o ≡ Some standing_of.Stuck → IsBodyless plan.now later.new frame instance) }
{
    seen_tasks_are_ready();
    match told_of_body(alloc, &plan.start.register, later, frame, instance) {
        Ok(body) => Ok(Some(Standing::Ready(body))),
        Err(lack) => answer_lack(alloc, plan, numbers, held, history, later, lack),
    }
}

/// The readiness of the put of an instance at the point after a history, where it waits and what it needs at the start
/// is done. It is stuck only where the body has no value. Only states become known, also after `OutOfMemory`.
pub fn put_standing(
    alloc: Global,
    plan: &Plan,
    numbers: &Numbers,
    held: &Held,
    history: &History,
    later: &mut Later,
    frame: usize,
    instance: Instance,
) -> Result<Standing, OutOfMemory>
    requires point { IsAtPoint plan.now held.now numbers.now history.now.events later.old }
    requires put { IsOfTable (table_of plan.now) (Put frame instance.resource instance.copy) }
    ensures states { HasStates plan.now held.now history.now.events later.old later.new }
    ensures stands { (u : ℕ) → IsNext plan.now held.now history.now.events u (Put frame instance.resource instance.copy)
        → IfOk result (IsStanding (planned_by plan.now held.now) (progress history.now.events)
        (known_now (table_of plan.now) later.new) u) }
    ensures stuck { IfOk result (λ s. s ≡ standing_of.Stuck → IsBodyless plan.now later.new frame instance) }
{
    'looks: loop {
        match look_at(alloc, plan, numbers, held, history, later, frame, instance) {
            Ok(Some(standing)) => return Ok(standing),
            Ok(None) => {}
            Err(refused) => return Err(refused),
        }
    }
}

// The readiness of the entry of a scope, by what settling it came to; none where a state became known.
fn answer_settling(
    alloc: Global,
    plan: &Plan,
    numbers: &Numbers,
    held: &Held,
    history: &History,
    later: &mut Later,
    settling: Settling,
) -> Result<Option<Standing>, OutOfMemory>
    requires point { IsAtPoint plan.now held.now numbers.now history.now.events later.old }
    requires listed { (j : ℕ) → settling ≡ settling_of.Line j → j < length (table_of plan.now).lines.items }
    ensures states { HasStates plan.now held.now history.now.events later.old later.new }
    ensures more { IfOk result (IsOneMore later.old later.new) }
    ensures look { (f u : ℕ) → f < length (table_of plan.now).frames.items
        → IsNext plan.now held.now history.now.events u (Enter f)
        → IsSettling false (table_of plan.now) later.old f settling
        → IfOk result (IsEntryLook plan.now held.now history.now.events later.old later.new u) }
{
    seen_tasks_are_ready();
    match settling {
        Settling::Settled => Ok(Some(Standing::Ready(Value::Null))),
        Settling::State(key) => {
            answer_lack(alloc, plan, numbers, held, history, later, Lack::State(key))
        }
        Settling::Line(line) => {
            answer_lack(alloc, plan, numbers, held, history, later, Lack::Line(line))
        }
        Settling::Nothing(_) => Ok(Some(Standing::Stuck)),
        Settling::Circle(_) => Ok(Some(Standing::Stuck)),
    }
}

/// The readiness of the task that enters a scope at the point after a history, where it waits and what it needs at the
/// start is done. What is settled of the scope stays so, also after `OutOfMemory`.
pub fn enter_standing(
    alloc: Global,
    plan: &Plan,
    numbers: &Numbers,
    held: &Held,
    history: &History,
    later: &mut Later,
    frame: usize,
) -> Result<Standing, OutOfMemory>
    requires point { IsAtPoint plan.now held.now numbers.now history.now.events later.old }
    requires told { AreTold (table_of plan.now) later.old }
    requires there { frame < length (table_of plan.now).frames.items }
    ensures more { HasMore plan.now held.now history.now.events later.old later.new }
    ensures stands { (u : ℕ) → IsNext plan.now held.now history.now.events u (Enter frame)
        → IfOk result (IsStanding (planned_by plan.now held.now) (progress history.now.events)
        (known_now (table_of plan.now) later.new) u) }
    ensures entered { (u : ℕ) → IsNext plan.now held.now history.now.events u (Enter frame)
        → IfOk result (λ s. Enters (planned_by plan.now held.now) u s
        → IsScopeSeen (planned_by plan.now held.now) (known_now (table_of plan.now) later.new) u) }
{
    'looks: loop {
        let settling = settle(alloc, &plan.start.register, later, frame, false)?;
        match answer_settling(alloc, plan, numbers, held, history, later, settling) {
            Ok(Some(standing)) => return Ok(standing),
            Ok(None) => {}
            Err(refused) => return Err(refused),
        }
    }
}

/// The readiness of the task of a number, which waits and of which all that it needs at the start is done. What was
/// known stays known. The outputs of the scope that it leaves are noted where it is ready.
pub(crate) fn task_standing(
    alloc: Global,
    plan: &Plan,
    numbers: &Numbers,
    held: &Held,
    history: &History,
    later: &mut Later,
    noted: &mut Option<Outputs>,
    number: u32,
) -> Result<Standing, OutOfMemory>
    requires point { IsAtPoint plan.now held.now numbers.now history.now.events later.old }
    requires told { AreTold (table_of plan.now) later.old }
    requires within { number < length plan.now.tasks.items }
    requires waits { (progress history.now.events).status number ≡ is_waiting }
    requires needs { AreStartNeedsDone (planned_by plan.now held.now) (progress history.now.events) number }
    ensures more { HasMore plan.now held.now history.now.events later.old later.new }
    ensures stands { IfOk result (IsStanding (planned_by plan.now held.now) (progress history.now.events)
        (known_now (table_of plan.now) later.new) number) }
    ensures entered { IfOk result (λ s. Enters (planned_by plan.now held.now) number s
        → IsScopeSeen (planned_by plan.now held.now) (known_now (table_of plan.now) later.new) number) }
    ensures noted { IfOk result (λ s. Leaves (planned_by plan.now held.now) number s
        → IsNoted plan.now later.new noted.new number) }
{
    seen_tasks_are_ready();
    match &plan.tasks[number as usize] {
        Task::Enter(frame) => { enter_standing(alloc, plan, numbers, held, history, later, *frame) }
        Task::Put(frame, resource, copy) => put_standing(
            alloc,
            plan,
            numbers,
            held,
            history,
            later,
            *frame,
            Instance {
                resource: *resource,
                copy: *copy,
            },
        ),
        Task::Leave(frame) => leave_task(alloc, plan, numbers, held, history, later, noted, *frame),
        Task::Delete(_) => Ok(Standing::Ready(Value::Null)),
    }
}
