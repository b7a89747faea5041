// What a put or a deletion is for.
ghost use Rattle.std.specs.Prelude.{◌≡◌, [], IfOk, Some, slice_get};
ghost use Rattle.arm_ids.specs.Id.{folded_text};
ghost use Rattle.arm_ids.specs.Held as holdings;
ghost use Rattle.arm_ids.specs.Held.{HeldResource};
ghost use Rattle.plan_cells.specs.Tasks as cells;
ghost use Rattle.plan_tasks.specs.Start.{IsStartTable, IsInstance};
ghost use Rattle.point_states.specs.Plans.{IsPlanned};
ghost use Rattle.deploy_histories.specs.Planned as histories;
ghost use Rattle.deploy_histories.specs.Legal.{IsAct};
ghost use Rattle.deploy_histories.specs.Outcome.{Target, target_of, delete_target};
ghost use Rattle.point_states.specs.Planned.{planned_by};
ghost use Rattle.task_aims.specs.Aims.{target_by, named_target, target_at, said_by, IsAimOf, IsTitle};

use arm_ids::{Entry, Held, Key, Place, id_text};
use arm_value::{OutOfMemory, Text, Value};
use plan_table::line::State;
use plan_table::listed::Listed;
use plan_table::table::Table;
use point_states::{Plan, Task};
use provider_trait::Act;
use std::alloc::{AllocError, Global};
use task_standings::Aim;
use template_parts::run_out;

// What an act on an id is for, with a copy of the version.
fn with_version(alloc: Global, act: Act, id: Text, api: &Text) -> Result<Aim, OutOfMemory>
    ensures { IfOk result (λ a. target_by a ≡ record { act = act; id = id; api = api.now }) }
{
    match api.copy(alloc) {
        Ok(api) => Ok(Aim { act, id, api }),
        Err(_) => run_out(id),
    }
}

// What the put of a resource with this name is for.
fn put_named(alloc: Global, place: &Place, listed: &Listed, name: &Text) -> Result<Aim, OutOfMemory>
    ensures { IfOk result (λ a. target_by a ≡ named_target place.now listed.now name.now) }
{
    match id_text(alloc, place, listed.kind.as_str(), name.as_str()) {
        Ok(id) => with_version(alloc, Act::Put, id, &listed.declaration.api_version),
        // The name is one of which an id can be formed, so no other fault comes.
        Err(_) => Err(AllocError),
    }
}

// What the put of a resource is for, whose name is this value, a text.
fn put_by_name(
    alloc: Global,
    place: &Place,
    listed: &Listed,
    name: &Value,
) -> Result<Aim, OutOfMemory>
    requires { IsTitle name.now }
    ensures { IfOk result (IsAimOf place.now listed.now name.now) }
{
    match name {
        Value::Text(name) => put_named(alloc, place, listed, name),
        Value::Null => unreachable!(),
        Value::Bool(_) => unreachable!(),
        Value::Int(_) => unreachable!(),
        Value::Array(_) => unreachable!(),
        Value::Object(_) => unreachable!(),
    }
}

// What the put of a resource is for, by what the line of its name has.
fn put_by_line(
    alloc: Global,
    place: &Place,
    listed: &Listed,
    state: &State,
) -> Result<Aim, OutOfMemory>
    requires { (g : Target) × (said_by place.now listed.now state.now ≡ Some g) }
    ensures { IfOk result (λ a. said_by place.now listed.now state.now ≡ Some (target_by a)) }
{
    match state {
        State::Value(name) => put_by_name(alloc, place, listed, name),
        State::New => unreachable!(),
        State::Open => unreachable!(),
        State::Empty => unreachable!(),
        State::Late(_) => unreachable!(),
    }
}

// What the put of an instance is for.
fn put_aim(
    alloc: Global,
    table: &Table,
    frame: usize,
    resource: usize,
    copy: usize,
) -> Result<Aim, OutOfMemory>
    requires table { IsStartTable table.now }
    requires instance { IsInstance table.now frame resource copy }
    requires named { (g : Target) × (target_at table.now frame resource copy ≡ Some g) }
    ensures { IfOk result (λ a. target_at table.now frame resource copy ≡ Some (target_by a)) }
{
    match table.name_line(alloc, frame, resource, copy)? {
        Some(line) => put_by_line(
            alloc,
            table.place,
            &table.frames[frame].resources[resource],
            &table.lines[line].state,
        ),
        None => unreachable!(),
    }
}

// A text without characters.
fn no_text(alloc: Global) -> Text
    ensures { result ≡ [] }
{
    Text::from_string(String::new(alloc))
}

// What the deletion of what is held is for.
fn deletion_of(alloc: Global, entry: &Entry) -> Result<Aim, OutOfMemory>
    ensures { IfOk result (λ a. (r : HeldResource) → r.id ≡ entry.now.id → delete_target (Some r)
        ≡ Some (target_by a)) }
{
    let id = entry.id.copy(alloc)?;
    Ok(Aim {
        act: Act::Delete,
        id,
        api: no_text(alloc),
    })
}

// What the deletion at a key is for, where something is held.
fn deletion_aim(alloc: Global, held: &Held, key: &Key) -> Result<Aim, OutOfMemory>
    requires { (r : HeldResource) × (holdings.find (folded_text key.now) held.now ≡ Some r) }
    ensures { IfOk result (λ a. delete_target (holdings.find (folded_text key.now) held.now) ≡ Some (target_by a)) }
{
    match held.find(key) {
        Some(entry) => deletion_of(alloc, entry),
        None => unreachable!(),
    }
}

/// What the put or the deletion of a number is for: the id of the resource with its letters as they are spelled, and
/// the version of its type, which is empty for a deletion.
pub fn aim_of(alloc: Global, plan: &Plan, held: &Held, task: u32) -> Result<Aim, OutOfMemory>
    requires planned { IsPlanned plan.now held.now }
    requires histories { histories.IsPlanned (planned_by plan.now held.now) }
    requires act { (t : cells.Task) × ((slice_get (planned_by plan.now held.now).tasks task ≡ Some t) × IsAct t) }
    ensures { IfOk result (λ a. target_of (planned_by plan.now held.now) task ≡ Some (target_by a)) }
{
    match &plan.tasks[task as usize] {
        Task::Put(frame, resource, copy) => {
            put_aim(alloc, &plan.start.register.table, *frame, *resource, *copy)
        }
        Task::Delete(key) => deletion_aim(alloc, held, key),
        Task::Enter(_) => unreachable!(),
        Task::Leave(_) => unreachable!(),
    }
}
