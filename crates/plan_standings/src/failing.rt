// Why a task cannot begin at the end of a deployment.
ghost use Rattle.std.specs.Prelude.{◌≡◌, ◌<◌, IfOk, length, true};
ghost use Rattle.plan_table.specs.Opened.{step_of};
ghost use Rattle.plan_table.specs.Whole.{whole_of, IsLaid};
ghost use Rattle.plan_table.specs.Found.{scope_at};
ghost use Rattle.plan_paths.specs.Texts.{a_path, instance_text};
ghost use Rattle.task_aims.specs.Task.TheVariants.{Put, Enter, Leave};
ghost use Rattle.task_aims.specs.Numbers.{IsOfTable};
ghost use Rattle.deploy_histories.specs.Events.{progress, is_waiting};
ghost use Rattle.task_aims.specs.Planned.{planned_by};
ghost use Rattle.task_standings.specs.declared.standing.Failing.TheVariants as failing_of;
ghost use Rattle.task_standings.specs.declared.standing.TaskFault.TheVariants as fault_of;
ghost use Rattle.task_standings.specs.Failures.{IsFailing};
ghost use Rattle.scope_faults.specs.Entries.{AreTold, IsSettling};
ghost use Rattle.task_standings.specs.Standings.{AreStartNeedsDone};
ghost use Rattle.plan_standings.specs.Waits.{table_of, IsNext, IsAtPoint, HasStates};
ghost use Rattle.plan_standings.specs.Tells.{tells};
ghost use Rattle.plan_standings.specs.Ended.{IsOver};
ghost use Rattle.plan_standings.specs.Answers.{IsOneMore};
ghost use Rattle.plan_standings.specs.Entering.{HasMore};
ghost use Rattle.plan_standings.specs.Needing.{IsNeverFilled, IsFailingLook};

use crate::answering::need_of;
use crate::readiness::put_standing;
use arm_ids::Held;
use arm_value::OutOfMemory;
use board_history::History;
use plan_paths::instance_path;
use plan_sight::lack::Lack;
use plan_table::frame::Instance;
use plan_table::table::Table;
use point_rows::later::Later;
use point_values::laws::seen_tasks_are_ready;
use scope_faults::circles::circle_lack;
use scope_faults::entries::first_fault;
use scope_faults::outputs::{output_fault, outputs_lack};
use scope_faults::settling::{Settling, settle};
use std::alloc::Global;
use task_aims::{Numbers, Plan, Task};
use task_standings::laws::needed_by_all;
use task_standings::{Failing, Standing, TaskFault};

// That the body of an instance has no value.
fn bodyless(
    alloc: Global,
    table: &Table,
    frame: usize,
    instance: Instance,
) -> Result<Failing, OutOfMemory>
    requires laid { IsLaid table.now }
    requires there { frame < length table.now.frames.items }
    ensures { IfOk result (λ f. f ≡ failing_of.Faulty (fault_of.NoValue (instance_text a_path
        (whole_of table.now).template (scope_at table.now frame).position (step_of instance)))) }
{
    let path = instance_path(alloc, table, frame, instance)?;
    Ok(Failing::Faulty(TaskFault::NoValue(path)))
}

/// Why the put of an instance cannot begin after a history by which nothing more may come: its body has no value, or it
/// needs a task that is not done. Only states become known, also after `OutOfMemory`.
pub fn put_failing(
    alloc: Global,
    plan: &Plan,
    numbers: &Numbers,
    held: &Held,
    history: &History,
    later: &mut Later,
    task: u32,
    frame: usize,
    instance: Instance,
) -> Result<Failing, OutOfMemory>
    requires point { IsAtPoint plan.now held.now numbers.now history.now.events later.old }
    requires put { IsOfTable (table_of plan.now) (Put frame instance.resource instance.copy) }
    requires next { IsNext plan.now held.now history.now.events task (Put frame instance.resource instance.copy) }
    requires over { IsOver (planned_by plan.now held.now) (progress history.now.events) }
    ensures states { HasStates plan.now held.now history.now.events later.old later.new }
    ensures failing { IfOk result
        (IsFailing tells (planned_by plan.now held.now) (progress history.now.events) task) }
{
    needed_by_all();
    match put_standing(alloc, plan, numbers, held, history, later, frame, instance) {
        Ok(Standing::Ready(_)) => unreachable!(),
        Ok(Standing::Waits(other)) => Ok(Failing::Needs(other)),
        Ok(Standing::Stuck) => bodyless(alloc, &plan.start.register.table, frame, instance),
        Err(refused) => Err(refused),
    }
}

// Why a scope cannot be entered of which each parameter and variable is told, or waits for what is never known; none
// where a state became known.
fn told_entry(
    alloc: Global,
    plan: &Plan,
    numbers: &Numbers,
    held: &Held,
    history: &History,
    later: &mut Later,
    task: u32,
    frame: usize,
) -> Result<Option<Failing>, OutOfMemory>
    requires point { IsAtPoint plan.now held.now numbers.now history.now.events later.old }
    requires told { AreTold (table_of plan.now) later.old }
    requires there { frame < length (table_of plan.now).frames.items }
    requires next { IsNext plan.now held.now history.now.events task (Enter frame) }
    requires over { IsOver (planned_by plan.now held.now) (progress history.now.events) }
    requires filled { IsNeverFilled plan.now held.now history.now.events later.old frame }
    ensures states { HasStates plan.now held.now history.now.events later.old later.new }
    ensures more { IfOk result (IsOneMore later.old later.new) }
    ensures failing { IfOk result
        (IsFailingLook (planned_by plan.now held.now) (progress history.now.events) task) }
{
    seen_tasks_are_ready();
    match circle_lack(alloc, &plan.start.register, later, frame)? {
        Some(lack) => need_of(alloc, plan, numbers, held, history, later, lack),
        None => match first_fault(alloc, &plan.start.register, later, frame) {
            Ok(Some(fault)) => Ok(Some(Failing::Faulty(fault))),
            Ok(None) => unreachable!(),
            Err(refused) => Err(refused),
        },
    }
}

// Why a scope cannot be entered, by what settling it came to; none where a state became known.
fn entry_by(
    alloc: Global,
    plan: &Plan,
    numbers: &Numbers,
    held: &Held,
    history: &History,
    later: &mut Later,
    task: u32,
    frame: usize,
    settling: Settling,
) -> Result<Option<Failing>, OutOfMemory>
    requires point { IsAtPoint plan.now held.now numbers.now history.now.events later.old }
    requires told { AreTold (table_of plan.now) later.old }
    requires there { frame < length (table_of plan.now).frames.items }
    requires next { IsNext plan.now held.now history.now.events task (Enter frame) }
    requires over { IsOver (planned_by plan.now held.now) (progress history.now.events) }
    requires settling { IsSettling true (table_of plan.now) later.old frame settling }
    ensures states { HasStates plan.now held.now history.now.events later.old later.new }
    ensures more { IfOk result (IsOneMore later.old later.new) }
    ensures failing { IfOk result
        (IsFailingLook (planned_by plan.now held.now) (progress history.now.events) task) }
{
    match settling {
        Settling::Settled => { told_entry(alloc, plan, numbers, held, history, later, task, frame) }
        Settling::Circle(_) => {
            told_entry(alloc, plan, numbers, held, history, later, task, frame)
        }
        Settling::State(key) => {
            need_of(alloc, plan, numbers, held, history, later, Lack::State(key))
        }
        Settling::Line(line) => {
            need_of(alloc, plan, numbers, held, history, later, Lack::Line(line))
        }
        Settling::Nothing(_) => unreachable!(),
    }
}

/// Why a scope cannot be entered after a history by which nothing more may come: the first of its parameters and
/// variables that has no value, or a task that one of them needs and that is not done. What is settled of the scope
/// stays so, also after `OutOfMemory`.
pub fn enter_failing(
    alloc: Global,
    plan: &Plan,
    numbers: &Numbers,
    held: &Held,
    history: &History,
    later: &mut Later,
    task: u32,
    frame: usize,
) -> Result<Failing, OutOfMemory>
    requires point { IsAtPoint plan.now held.now numbers.now history.now.events later.old }
    requires told { AreTold (table_of plan.now) later.old }
    requires there { frame < length (table_of plan.now).frames.items }
    requires next { IsNext plan.now held.now history.now.events task (Enter frame) }
    requires over { IsOver (planned_by plan.now held.now) (progress history.now.events) }
    ensures more { HasMore plan.now held.now history.now.events later.old later.new }
    ensures failing { IfOk result
        (IsFailing tells (planned_by plan.now held.now) (progress history.now.events) task) }
{
    'looks: loop {
        let settling = settle(alloc, &plan.start.register, later, frame, true)?;
        match entry_by(
            alloc, plan, numbers, held, history, later, task, frame, settling,
        ) {
            Ok(Some(failing)) => return Ok(failing),
            Ok(None) => {}
            Err(refused) => return Err(refused),
        }
    }
}

// Why a scope cannot be left; none where a state became known.
fn leave_by(
    alloc: Global,
    plan: &Plan,
    numbers: &Numbers,
    held: &Held,
    history: &History,
    later: &mut Later,
    task: u32,
    frame: usize,
) -> Result<Option<Failing>, OutOfMemory>
    requires point { IsAtPoint plan.now held.now numbers.now history.now.events later.old }
    requires there { frame < length (table_of plan.now).frames.items }
    requires next { IsNext plan.now held.now history.now.events task (Leave frame) }
    requires over { IsOver (planned_by plan.now held.now) (progress history.now.events) }
    ensures states { HasStates plan.now held.now history.now.events later.old later.new }
    ensures more { IfOk result (IsOneMore later.old later.new) }
    ensures failing { IfOk result
        (IsFailingLook (planned_by plan.now held.now) (progress history.now.events) task) }
{
    seen_tasks_are_ready();
    match outputs_lack(alloc, &plan.start.register, later, frame)? {
        Some(lack) => need_of(alloc, plan, numbers, held, history, later, lack),
        None => match output_fault(alloc, &plan.start.register, later, frame) {
            Ok(Some(fault)) => Ok(Some(Failing::Faulty(fault))),
            Ok(None) => unreachable!(),
            Err(refused) => Err(refused),
        },
    }
}

/// Why a scope cannot be left after a history by which nothing more may come: the first of its outputs that has no
/// value, or a task that one of them needs and that is not done. Only states become known, also after `OutOfMemory`.
pub fn leave_failing(
    alloc: Global,
    plan: &Plan,
    numbers: &Numbers,
    held: &Held,
    history: &History,
    later: &mut Later,
    task: u32,
    frame: usize,
) -> Result<Failing, OutOfMemory>
    requires point { IsAtPoint plan.now held.now numbers.now history.now.events later.old }
    requires there { frame < length (table_of plan.now).frames.items }
    requires next { IsNext plan.now held.now history.now.events task (Leave frame) }
    requires over { IsOver (planned_by plan.now held.now) (progress history.now.events) }
    ensures states { HasStates plan.now held.now history.now.events later.old later.new }
    ensures failing { IfOk result
        (IsFailing tells (planned_by plan.now held.now) (progress history.now.events) task) }
{
    'looks: loop {
        match leave_by(alloc, plan, numbers, held, history, later, task, frame) {
            Ok(Some(failing)) => return Ok(failing),
            Ok(None) => {}
            Err(refused) => return Err(refused),
        }
    }
}

/// Why the task of a number, which waits and of which all that it needs at the start is done, cannot begin after a
/// history by which nothing more may come. What was known stays known.
pub(crate) fn task_failing(
    alloc: Global,
    plan: &Plan,
    numbers: &Numbers,
    held: &Held,
    history: &History,
    later: &mut Later,
    number: u32,
) -> Result<Failing, OutOfMemory>
    requires point { IsAtPoint plan.now held.now numbers.now history.now.events later.old }
    requires told { AreTold (table_of plan.now) later.old }
    requires within { number < length plan.now.tasks.items }
    requires waits { (progress history.now.events).status number ≡ is_waiting }
    requires needs { AreStartNeedsDone (planned_by plan.now held.now) (progress history.now.events) number }
    requires over { IsOver (planned_by plan.now held.now) (progress history.now.events) }
    ensures more { HasMore plan.now held.now history.now.events later.old later.new }
    ensures failing { IfOk result
        (IsFailing tells (planned_by plan.now held.now) (progress history.now.events) number) }
{
    seen_tasks_are_ready();
    match &plan.tasks[number as usize] {
        Task::Enter(frame) => {
            enter_failing(alloc, plan, numbers, held, history, later, number, *frame)
        }
        Task::Put(frame, resource, copy) => put_failing(
            alloc,
            plan,
            numbers,
            held,
            history,
            later,
            number,
            *frame,
            Instance {
                resource: *resource,
                copy: *copy,
            },
        ),
        Task::Leave(frame) => {
            leave_failing(alloc, plan, numbers, held, history, later, number, *frame)
        }
        Task::Delete(_) => unreachable!(),
    }
}
