// The keys at which tasks put.
ghost use Rattle.std.specs.Prelude.{◌≡◌, ◌<◌, IfOk, Some, Option, map, length, slice_get, option_map, option_and_then};
ghost use Rattle.arm_value.specs.View.{json};
ghost use Rattle.reading.specs.World.{Each};
ghost use Rattle.reading.specs.Knowledge.{known_value, told, finished};
ghost use Rattle.deploy_cells.specs.Cells.{step};
ghost use Rattle.deploy_cells.specs.Puts.{Kind};
ghost use Rattle.plan_cells.specs.Resources as cells;
ghost use Rattle.plan_cells.specs.Desired.{kind_of};
ghost use Rattle.plan_cells.specs.Start.{start_world};
ghost use Rattle.plan_cells.specs.Tasks.{key_by, put_keys};
ghost use Rattle.plan_cells.specs.Reads.{key_in};
ghost use Rattle.plan_table.specs.Rows.{known_by};
ghost use Rattle.plan_table.specs.Lines.{status_in};
ghost use Rattle.plan_table.specs.Whole.{whole_of, scopes_of};
ghost use Rattle.plan_table.specs.Found.{scope_at};
ghost use Rattle.plan_tasks.specs.Start.{start_of, IsStartTable, IsInstance, IsTaskOf, task_of};

use crate::task::ScopeTask;
use arm_ids::{Key, Place};
use arm_value::{OutOfMemory, Text, Value};
use plan_table::line::State;
use plan_table::table::Table;
use std::alloc::{AllocError, Global};
use template_parts::run_out;

// The key of a type and a name; none where the name is no text.
fn key_named(
    alloc: Global,
    place: &Place,
    kind: &Text,
    name: &Value,
) -> Result<Option<Key>, OutOfMemory>
    ensures { IfOk result (λ o. (k : Kind) → k.type ≡ kind.now → key_by place.now (Some k) (json name.now) ≡ o) }
{
    match name {
        Value::Text(name) => match Key::of(alloc, place, kind.as_str(), name.as_str()) {
            Ok(key) => Ok(Some(key)),
            // The name is one of which a key can be formed, so no other fault comes.
            Err(_) => Err(AllocError),
        },
        _ => Ok(None),
    }
}

// The key of a type and of the name that a line says.
fn key_by(
    alloc: Global,
    place: &Place,
    kind: &Text,
    state: &State,
) -> Result<Option<Key>, OutOfMemory>
    ensures { IfOk result (λ o. (k : Kind) → k.type ≡ kind.now
        → option_and_then (key_by place.now (Some k)) (known_value (known_by (Some (status_in state.now)))) ≡ o) }
{
    match state {
        State::Value(name) => key_named(alloc, place, kind, name),
        State::New => Ok(None),
        State::Open => Ok(None),
        State::Empty => Ok(None),
        State::Late(_) => Ok(None),
    }
}

/// The key of an instance; none where its name is no text.
pub fn key_at(
    alloc: Global,
    table: &Table,
    frame: usize,
    resource: usize,
    copy: usize,
) -> Result<Option<Key>, OutOfMemory>
    requires table { IsStartTable table.now }
    requires instance { IsInstance table.now frame resource copy }
    ensures { IfOk result (λ o. key_in (whole_of table.now) (start_world (start_of table.now))
        (scope_at table.now frame).position (step resource copy) ≡ o) }
{
    match table.name_line(alloc, frame, resource, copy)? {
        Some(line) => {
            let kind = &table.frames[frame].resources[resource].kind;
            let key = key_by(alloc, table.place, kind, &table.lines[line].state)?;
            Ok(key)
        }
        None => unreachable!(),
    }
}

/// The keys at which tasks put, in their order; none where the name of one is no text.
pub fn list_keys(
    alloc: Global,
    table: &Table,
    tasks: &[ScopeTask],
) -> Result<Option<Vec<Key>>, OutOfMemory>
    requires table { IsStartTable table.now }
    requires tasks { Each (IsTaskOf table.now) tasks.now }
    ensures { IfOk result (λ o. told (start_of table.now)
        (put_keys (whole_of table.now) (map (task_of (scopes_of table.now)) tasks.now))
        ≡ finished (option_map (λ ks. ks.items) o)) }
{
    let mut keys = Vec::new(alloc);
    'tasks: for task in tasks {
        match *task {
            ScopeTask::Put(frame, resource, copy) => {
                match key_at(alloc, table, frame, resource, copy) {
                    Ok(Some(key)) => keys.push(key)?,
                    Ok(None) => return Ok(None),
                    Err(_) => return run_out(keys),
                }
            }
            ScopeTask::Enter(_) => {}
            ScopeTask::Leave(_) => {}
        }
    }
    Ok(Some(keys))
}
