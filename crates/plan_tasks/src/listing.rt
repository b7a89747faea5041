// The tasks of the scopes of a table, in their order.
ghost use Rattle.std.specs.Prelude.{◌≡◌, ◌++◌, ◌<◌, [], IfOk, Some, map, length, slice_get, if◌then◌else◌};
ghost use Rattle.reading.specs.World.{Each};
ghost use Rattle.reading.specs.Knowledge.{told, value};
ghost use Rattle.deploy_cells.specs.Cells.{step};
ghost use Rattle.plan_cells.specs.Resources as cells;
ghost use Rattle.plan_cells.specs.Tasks.{template_tasks};
ghost use Rattle.plan_table.specs.Whole.{whole_of, scopes_of};
ghost use Rattle.plan_table.specs.Found.{scope_at};
ghost use Rattle.plan_tasks.specs.InOrder.{is_in, scope_in_order, body_in_order, resource_in_order};
ghost use Rattle.plan_tasks.specs.Start.{start_of, IsStartTable, task_of, IsInstance, IsTaskOf};

use crate::instance::{Found, count_copies, find_instance};
use crate::task::ScopeTask;
use arm_value::OutOfMemory;
use plan_table::table::Table;
use std::alloc::Global;
use template_parts::run_out;

// Lists the tasks of an instance of a resource.
#[cycle(scopes)]
fn list_instance(
    alloc: Global,
    table: &Table,
    frame: usize,
    resource: usize,
    copy: usize,
    tasks: &mut Vec<ScopeTask>,
) -> Result<(), OutOfMemory>
    requires table { IsStartTable table.now }
    requires instance { IsInstance table.now frame resource copy }
    ensures listed { IfOk result (λ _. (x : cells.Listed)
        → slice_get (scope_at table.now frame).resources resource ≡ Some x
        → map (task_of (scopes_of table.now)) tasks.new.items ≡ map (task_of (scopes_of table.now)) tasks.old.items
        ++ (if is_in (start_of table.now) (scope_at table.now frame).position (step resource copy)
        then body_in_order (start_of table.now) (scope_at table.now frame).position (step resource copy) x.content
        else [])) }
    ensures there { IfOk result (λ _. Each (IsTaskOf table.now) tasks.old.items
        → Each (IsTaskOf table.now) tasks.new.items) }
{
    match find_instance(alloc, table, frame, resource, copy)? {
        Found::LeftAway => Ok(()),
        Found::Resource => {
            tasks.push(ScopeTask::Put(frame, resource, copy))?;
            Ok(())
        }
        Found::Scope(opened) => list_scope(alloc, table, opened, tasks),
    }
}

// Lists the tasks of the instances of a resource.
#[cycle(scopes)]
fn list_resource(
    alloc: Global,
    table: &Table,
    frame: usize,
    resource: usize,
    tasks: &mut Vec<ScopeTask>,
) -> Result<(), OutOfMemory>
    requires table { IsStartTable table.now }
    requires there { frame < length table.now.frames.items }
    requires resource { resource < length (scope_at table.now frame).resources }
    ensures listed { IfOk result (λ _. (x : cells.Listed)
        → slice_get (scope_at table.now frame).resources resource ≡ Some x
        → map (task_of (scopes_of table.now)) tasks.new.items ≡ map (task_of (scopes_of table.now)) tasks.old.items
        ++ resource_in_order (start_of table.now) (scope_at table.now frame).position resource x) }
    ensures there { IfOk result (λ _. Each (IsTaskOf table.now) tasks.old.items
        → Each (IsTaskOf table.now) tasks.new.items) }
{
    let count = count_copies(alloc, table, frame, resource)?;
    'copies: for copy in 0..count {
        list_instance(alloc, table, frame, resource, copy, tasks)?;
    }
    Ok(())
}

// Lists the tasks of a scope.
#[cycle(scopes)]
fn list_scope(
    alloc: Global,
    table: &Table,
    frame: usize,
    tasks: &mut Vec<ScopeTask>,
) -> Result<(), OutOfMemory>
    requires table { IsStartTable table.now }
    requires there { frame < length table.now.frames.items }
    ensures listed { IfOk result (λ _. map (task_of (scopes_of table.now)) tasks.new.items
        ≡ map (task_of (scopes_of table.now)) tasks.old.items ++ scope_in_order (start_of table.now)
        (scope_at table.now frame).position (scope_at table.now frame).template) }
    ensures there { IfOk result (λ _. Each (IsTaskOf table.now) tasks.old.items
        → Each (IsTaskOf table.now) tasks.new.items) }
{
    tasks.push(ScopeTask::Enter(frame))?;
    let count = table.frames[frame].resources.len();
    'resources: for resource in 0..count {
        list_resource(alloc, table, frame, resource, tasks)?;
    }
    tasks.push(ScopeTask::Leave(frame))?;
    Ok(())
}

/// The tasks of all scopes: the entry of each, the tasks of its instances in the order of resources and by index, with
/// those of a nested deployment in its place, and its leave.
pub fn list_tasks(alloc: Global, table: &Table) -> Result<Vec<ScopeTask>, OutOfMemory>
    requires table { IsStartTable table.now }
    ensures tasks { IfOk result (λ ts. told (start_of table.now) (template_tasks [] (whole_of table.now).template)
        ≡ value (map (task_of (scopes_of table.now)) ts.items)) }
    ensures there { IfOk result (λ ts. Each (IsTaskOf table.now) ts.items) }
{
    let mut tasks = Vec::new(alloc);
    match list_scope(alloc, table, 0, &mut tasks) {
        Ok(()) => Ok(tasks),
        Err(_) => run_out(tasks),
    }
}
