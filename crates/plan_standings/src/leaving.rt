// The readiness of a leave of a scope, and the outputs of the scope: they are noted where the leave is ready, and known
// once the scope was left.
ghost use Rattle.std.specs.Prelude.{◌≡◌, ◌<◌, ℕ, length, IfOk, Some};
ghost use Rattle.plan_cells.specs.Tasks.{leave};
ghost use Rattle.plan_table.specs.Found.{scope_at};
ghost use Rattle.plan_sight.specs.declared.lack.Lack.TheVariants as lack_of;
ghost use Rattle.task_aims.specs.Task.TheVariants.{Leave};
ghost use Rattle.scope_faults.specs.Outputs.{IsOffering, names_of, AreNoted, IsKept, Leaves};
ghost use Rattle.scope_faults.specs.Offering.TheVariants as offering_of;
ghost use Rattle.reading.specs.World.{Each};
ghost use Rattle.plan_table.specs.declared.table.Table as tables;
ghost use Rattle.plan_sight.specs.Ready.{IsReady};
ghost use Rattle.deploy_histories.specs.Events.{progress};
ghost use Rattle.task_aims.specs.Planned.{planned_by};
ghost use Rattle.point_rows.specs.Rows.{known_now, IsFit};
ghost use Rattle.task_standings.specs.Standings.{IsStanding};
ghost use Rattle.task_standings.specs.Standings as standings;
ghost use Rattle.plan_standings.specs.Waits.{table_of, IsNext, IsAtPoint, HasStates};
ghost use Rattle.plan_standings.specs.Answers.{IsLacking, IsOneMore};
ghost use Rattle.plan_standings.specs.Leaving.{IsLeaveLook, IsLeaving};
ghost use Rattle.plan_standings.specs.Kept.{IsNotedBy, IsNoted};

use crate::answering::answer_lack;
use arm_ids::Held;
use arm_value::{OutOfMemory, Value};
use board_history::History;
use plan_sight::lack::Lack;
use point_rows::later::Later;
use point_values::laws::seen_tasks_are_ready;
use scope_faults::keeping::keep;
use scope_faults::offering::{Offering, offer};
use scope_faults::telling::Noted;
use std::alloc::Global;
use task_aims::{Numbers, Plan};
use task_standings::Standing;

/// The readiness of the task that leaves a scope, by its outputs.
#[derive(Drop)]
pub enum Leaving {
    /// Each is told: the task is ready.
    Told(Vec<Noted>),
    /// One lacks something: the task is not ready.
    Stands(Standing),
}

// The readiness of a task of which a value lacks something; none where a state became known.
fn by_lack(
    alloc: Global,
    plan: &Plan,
    numbers: &Numbers,
    held: &Held,
    history: &History,
    later: &mut Later,
    lack: Lack,
) -> Result<Option<Leaving>, OutOfMemory>
    requires point { IsAtPoint plan.now held.now numbers.now history.now.events later.old }
    requires there { lack ≡ lack_of.NotThere → ⊥ }
    requires listed { (j : ℕ) → lack ≡ lack_of.Line j → j < length (table_of plan.now).lines.items }
    ensures states { HasStates plan.now held.now history.now.events later.old later.new }
    ensures more { IfOk result (IsOneMore later.old later.new) }
    ensures look { (f u : ℕ) → f < length (table_of plan.now).frames.items
        → IsNext plan.now held.now history.now.events u (Leave f)
        → IsLacking plan.now held.now history.now.events later.old
        (leave (scope_at (table_of plan.now) f).position) lack
        → IfOk result (IsLeaveLook plan.now held.now history.now.events later.old later.new f u) }
{
    match answer_lack(alloc, plan, numbers, held, history, later, lack) {
        Ok(Some(standing)) => Ok(Some(Leaving::Stands(standing))),
        Ok(None) => Ok(None),
        Err(refused) => Err(refused),
    }
}

// The readiness of the leave of a scope, by what its outputs were told to be; none where a state became known.
fn answer_offering(
    alloc: Global,
    plan: &Plan,
    numbers: &Numbers,
    held: &Held,
    history: &History,
    later: &mut Later,
    offering: Offering,
) -> Result<Option<Leaving>, OutOfMemory>
    requires point { IsAtPoint plan.now held.now numbers.now history.now.events later.old }
    requires listed { (j : ℕ) → offering ≡ offering_of.Line j → j < length (table_of plan.now).lines.items }
    ensures states { HasStates plan.now held.now history.now.events later.old later.new }
    ensures more { IfOk result (IsOneMore later.old later.new) }
    ensures look { (f u : ℕ) → f < length (table_of plan.now).frames.items
        → IsNext plan.now held.now history.now.events u (Leave f) → IsOffering (table_of plan.now) later.old f offering
        → IfOk result (IsLeaveLook plan.now held.now history.now.events later.old later.new f u) }
{
    seen_tasks_are_ready();
    match offering {
        Offering::Told(noted) => Ok(Some(Leaving::Told(noted))),
        Offering::State(key) => by_lack(
            alloc,
            plan,
            numbers,
            held,
            history,
            later,
            Lack::State(key),
        ),
        Offering::Line(line) => by_lack(
            alloc,
            plan,
            numbers,
            held,
            history,
            later,
            Lack::Line(line),
        ),
        Offering::Nothing(_) => Ok(Some(Leaving::Stands(Standing::Stuck))),
    }
}

/// The readiness of the task that leaves a scope at the point after a history, where it waits and what it needs at the
/// start is done. Only states become known, also after `OutOfMemory`.
pub fn leave_standing(
    alloc: Global,
    plan: &Plan,
    numbers: &Numbers,
    held: &Held,
    history: &History,
    later: &mut Later,
    frame: usize,
) -> Result<Leaving, OutOfMemory>
    requires point { IsAtPoint plan.now held.now numbers.now history.now.events later.old }
    requires there { frame < length (table_of plan.now).frames.items }
    ensures states { HasStates plan.now held.now history.now.events later.old later.new }
    ensures leaves { (u : ℕ) → IsNext plan.now held.now history.now.events u (Leave frame)
        → IfOk result (IsLeaving plan.now held.now history.now.events later.new frame u) }
{
    'looks: loop {
        let offering = offer(alloc, &plan.start.register, later, frame)?;
        match answer_offering(alloc, plan, numbers, held, history, later, offering) {
            Ok(Some(leaving)) => return Ok(leaving),
            Ok(None) => {}
            Err(refused) => return Err(refused),
        }
    }
}

/// The outputs of the scope that a task leaves, as they were told.
#[derive(Drop)]
pub struct Outputs {
    /// What was told, in the order of the template.
    pub told: Vec<Noted>,
}

// The readiness of the task that leaves a scope; the outputs are noted, where each is told.
fn note(noted: &mut Option<Outputs>, leaving: Leaving) -> Standing
    ensures { IsNotedBy leaving noted.new result }
{
    match leaving {
        Leaving::Told(told) => {
            *noted = Some(Outputs { told });
            Standing::Ready(Value::Null)
        }
        Leaving::Stands(standing) => standing,
    }
}

/// The readiness of the task that leaves the scope. The outputs of the scope are noted where it is ready.
pub(crate) fn leave_task(
    alloc: Global,
    plan: &Plan,
    numbers: &Numbers,
    held: &Held,
    history: &History,
    later: &mut Later,
    noted: &mut Option<Outputs>,
    frame: usize,
) -> Result<Standing, OutOfMemory>
    requires point { IsAtPoint plan.now held.now numbers.now history.now.events later.old }
    requires there { frame < length (table_of plan.now).frames.items }
    ensures states { HasStates plan.now held.now history.now.events later.old later.new }
    ensures stands { (u : ℕ) → IsNext plan.now held.now history.now.events u (Leave frame)
        → IfOk result (IsStanding (planned_by plan.now held.now) (progress history.now.events)
        (known_now (table_of plan.now) later.new) u) }
    ensures noted { (u : ℕ) → IsNext plan.now held.now history.now.events u (Leave frame)
        → IfOk result (λ s. standings.Leaves (planned_by plan.now held.now) u s
        → IsNoted plan.now later.new noted.new u) }
{
    match leave_standing(alloc, plan, numbers, held, history, later, frame) {
        Ok(leaving) => Ok(note(noted, leaving)),
        Err(refused) => Err(refused),
    }
}

/// Keeps the outputs that are noted, and notes none.
pub(crate) fn keep_noted(later: &mut Later, noted: &mut Option<Outputs>)
    requires { (n : Outputs) → noted.old ≡ Some n → Each (λ o. o.at < length later.old.entries.items) n.told.items }
    ensures leaves { (n : Outputs) → noted.old ≡ Some n → (t : tables.Table) (f : ℕ) → IsReady t → IsFit t later.old
        → AreNoted t later.old f (names_of t f) n.told.items → Leaves t f later.old later.new }
    ensures kept { (n : Outputs) → noted.old ≡ Some n → (t : tables.Table) (f : ℕ) → IsReady t → IsFit t later.old
        → AreNoted t later.old f (names_of t f) n.told.items → Each (IsKept t later.new f) (names_of t f) }
{
    match noted.take() {
        Some(outputs) => keep(later, outputs.told),
        None => {}
    }
}
