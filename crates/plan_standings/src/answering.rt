// What comes of a value that lacks something.
ghost use Rattle.std.specs.Prelude.{◌≡◌, ◌<◌, length, slice_get, Some, IfOk, ℕ};
ghost use Rattle.plan_table.specs.Lines.{frame_of};
ghost use Rattle.plan_table.specs.Whole.{IsLaid};
ghost use Rattle.task_aims.specs.Task.TheVariants.{Leave};
ghost use Rattle.task_aims.specs.Numbers.{AreNumbers};
ghost use Rattle.plan_cells.specs.Tasks as cells;
ghost use Rattle.task_aims.specs.Plan as plans;
ghost use Rattle.plan_sight.specs.declared.lack.Lack.TheVariants as lack_of;
ghost use Rattle.point_rows.specs.Rows.{AreIndexed, known_now};
ghost use Rattle.task_standings.specs.declared.standing.Standing.TheVariants as standing_of;
ghost use Rattle.arm_value.specs.Json.{Json};
ghost use Rattle.reading.specs.Knowledge.{waits, missing};
ghost use Rattle.deploy_cells.specs.Cells.{Cell, state};
ghost use Rattle.task_aims.specs.Plans.{deployment_of};
ghost use Rattle.deploy_histories.specs.Events.{progress};
ghost use Rattle.task_aims.specs.Planned.{planned_by};
ghost use Rattle.scope_faults.specs.Circles.{IsAwait};
ghost use Rattle.plan_standings.specs.Waits.{table_of, line_frame, IsAtPoint, HasStates, IsInSight};
ghost use Rattle.plan_standings.specs.Answers.{IsLacking, IsOneMore, IsAnswer};
ghost use Rattle.plan_standings.specs.Needing.{IsNeed};

use arm_ids::{Held, Key};
use arm_value::OutOfMemory;
use board_history::History;
use plan_sight::lack::Lack;
use plan_table::line::Spot;
use point_rows::later::Later;
use std::alloc::{AllocError, Global};
use task_aims::{Numbers, Plan, Taken, leave_of, take_state};
use task_standings::{Failing, Standing};

// The number of the scope of a cell.
fn scope_of(spot: &Spot) -> usize
    ensures { result ≡ frame_of spot.now }
{
    match spot {
        Spot::Parameter(frame, _) => *frame,
        Spot::Variable(frame, _) => *frame,
        Spot::Offered(frame, _) => *frame,
        Spot::Output(frame, _) => *frame,
        Spot::Count(frame, _) => *frame,
        Spot::Included(frame, _, _) => *frame,
        Spot::Name(frame, _, _) => *frame,
        Spot::Deployments(frame) => *frame,
    }
}

/// The number of the task that leaves the scope of the cell of a line.
pub(crate) fn leaver_of_line(
    alloc: Global,
    plan: &Plan,
    numbers: &Numbers,
    line: usize,
) -> Result<u32, OutOfMemory>
    requires table { IsLaid (table_of plan.now) }
    requires listed { line < length (table_of plan.now).lines.items }
    requires numbers { AreNumbers (table_of plan.now) plan.now.tasks.items plan.now.keys.items numbers.now }
    ensures { IfOk result (λ v. slice_get plan.now.tasks.items v ≡ Some (Leave (line_frame (table_of plan.now) line))) }
{
    let frame = scope_of(&plan.start.register.table.lines[line].spot);
    match leave_of(alloc, numbers, frame)? {
        Some(task) => Ok(task),
        None => unreachable!(),
    }
}

// The readiness of a task of which a value waits for the state at a key; none where that is known now.
fn answer_state(
    alloc: Global,
    numbers: &Numbers,
    held: &Held,
    history: &History,
    later: &mut Later,
    key: Key,
) -> Result<Option<Standing>, OutOfMemory>
    requires { AreIndexed later.old }
    ensures states { (g : plans.Plan) → IsAtPoint g held.now numbers.now history.now.events later.old
        → HasStates g held.now history.now.events later.old later.new }
    ensures more { (g : plans.Plan) → IsAtPoint g held.now numbers.now history.now.events later.old
        → IfOk result (IsOneMore later.old later.new) }
    ensures answered { (g : plans.Plan) → IsAtPoint g held.now numbers.now history.now.events later.old
        → (u : ℕ) (task : cells.Task) → IsLacking g held.now history.now.events later.old task (lack_of.State key)
        → IfOk result (IsAnswer g held.now history.now.events later.old later.new u task) }
    ensures waits { IfOk result (λ o. o ≡ Some standing_of.Stuck → ⊥) }
{
    match take_state(alloc, numbers, held, history, later, key) {
        Ok(Taken::Known) => Ok(None),
        Ok(Taken::Undone(task)) => Ok(Some(Standing::Waits(task))),
        Err(refused) => Err(refused),
    }
}

/// The readiness of a task of which a value lacks something. None where that is a state which is known now, so that the
/// value may be told again; it is stuck only where the value is none. Only states become known, also after
/// `OutOfMemory`.
pub fn answer_lack(
    alloc: Global,
    plan: &Plan,
    numbers: &Numbers,
    held: &Held,
    history: &History,
    later: &mut Later,
    lack: Lack,
) -> Result<Option<Standing>, OutOfMemory>
    requires point { IsAtPoint plan.now held.now numbers.now history.now.events later.old }
    requires there { lack ≡ lack_of.NotThere → ⊥ }
    requires listed { (j : ℕ) → lack ≡ lack_of.Line j → j < length (table_of plan.now).lines.items }
    ensures states { HasStates plan.now held.now history.now.events later.old later.new }
    ensures more { IfOk result (IsOneMore later.old later.new) }
    ensures answered { (u : ℕ) (task : cells.Task) → IsLacking plan.now held.now history.now.events later.old task lack
        → IfOk result (IsAnswer plan.now held.now history.now.events later.old later.new u task) }
    ensures stuck { IfOk result (λ o. o ≡ Some standing_of.Stuck → lack ≡ lack_of.NoValue) }
{
    match lack {
        Lack::NotThere => unreachable!(),
        Lack::NoValue => Ok(Some(Standing::Stuck)),
        Lack::Line(line) => match leaver_of_line(alloc, plan, numbers, line) {
            Ok(task) => Ok(Some(Standing::Waits(task))),
            Err(refused) => Err(refused),
        },
        Lack::State(key) => answer_state(alloc, numbers, held, history, later, key),
        Lack::OutOfMemory => Err(AllocError),
    }
}

// The task that gives the state at a key; none where the state is known now.
fn need_of_state(
    alloc: Global,
    numbers: &Numbers,
    held: &Held,
    history: &History,
    later: &mut Later,
    key: Key,
) -> Result<Option<Failing>, OutOfMemory>
    requires { AreIndexed later.old }
    ensures states { (g : plans.Plan) → IsAtPoint g held.now numbers.now history.now.events later.old
        → HasStates g held.now history.now.events later.old later.new }
    ensures more { (g : plans.Plan) → IsAtPoint g held.now numbers.now history.now.events later.old
        → IfOk result (IsOneMore later.old later.new) }
    ensures need { (g : plans.Plan) → IsAtPoint g held.now numbers.now history.now.events later.old
        → IfOk result (IsNeed (planned_by g held.now) (progress history.now.events) (state key)) }
{
    match take_state(alloc, numbers, held, history, later, key) {
        Ok(Taken::Known) => Ok(None),
        Ok(Taken::Undone(task)) => Ok(Some(Failing::Needs(task))),
        Err(refused) => Err(refused),
    }
}

/// The task that gives what a value waits for, and is not done. None where that is a state which is known now, so that
/// the value may be told again. Only states become known, also after `OutOfMemory`.
pub(crate) fn need_of(
    alloc: Global,
    plan: &Plan,
    numbers: &Numbers,
    held: &Held,
    history: &History,
    later: &mut Later,
    lack: Lack,
) -> Result<Option<Failing>, OutOfMemory>
    requires point { IsAtPoint plan.now held.now numbers.now history.now.events later.old }
    requires awaited { (c : Cell) × IsAwait {A = Json} (table_of plan.now) lack (waits c) }
    ensures states { HasStates plan.now held.now history.now.events later.old later.new }
    ensures more { IfOk result (IsOneMore later.old later.new) }
    ensures need { (c : Cell) → IsAwait {A = Json} (table_of plan.now) lack (waits c)
        → known_now (table_of plan.now) later.old c ≡ missing
        → IsInSight (deployment_of plan.now) (known_now (table_of plan.now) later.old) c
        → IfOk result (IsNeed (planned_by plan.now held.now) (progress history.now.events) c) }
{
    match lack {
        Lack::Line(line) => match leaver_of_line(alloc, plan, numbers, line) {
            Ok(task) => Ok(Some(Failing::Needs(task))),
            Err(refused) => Err(refused),
        },
        Lack::State(key) => need_of_state(alloc, numbers, held, history, later, key),
        Lack::NotThere => unreachable!(),
        Lack::NoValue => unreachable!(),
        Lack::OutOfMemory => unreachable!(),
    }
}
