// The tasks of a plan.
ghost use Rattle.std.specs.Prelude.{◌≡◌, ◌++◌, List, map, IfOk};
ghost use Rattle.reading.specs.World.{Each};
ghost use Rattle.plan_cells.specs.Tasks.{delete};
ghost use Rattle.plan_table.specs.declared.table.Table.{Table};
ghost use Rattle.plan_table.specs.Opened.{Opened};
ghost use Rattle.plan_tasks.specs.Start.{task_of, IsTaskOf};
ghost use Rattle.plan_assembly.specs.Plans.{task_in, IsTaskIn};

use crate::plan::Task;
use arm_ids::Key;
use arm_value::OutOfMemory;
use plan_tasks::ScopeTask;
use std::alloc::Global;

// The task of a scope.
fn planned(task: ScopeTask) -> Task
    ensures same { (os : List Opened) → task_in os result ≡ task_of os task }
    ensures there { (t : Table) → IsTaskOf t task → IsTaskIn t result }
{
    match task {
        ScopeTask::Enter(scope) => Task::Enter(scope),
        ScopeTask::Put(scope, resource, copy) => Task::Put(scope, resource, copy),
        ScopeTask::Leave(scope) => Task::Leave(scope),
    }
}

// Lists tasks of scopes last.
fn push_tasks(all: &mut Vec<Task>, tasks: &[ScopeTask]) -> Result<(), OutOfMemory>
    ensures listed { IfOk result (λ _. (os : List Opened) → map (task_in os) all.new.items
        ≡ map (task_in os) all.old.items ++ map (task_of os) tasks.now) }
    ensures there { IfOk result (λ _. (t : Table) → Each (IsTaskOf t) tasks.now → Each (IsTaskIn t) all.old.items
        → Each (IsTaskIn t) all.new.items) }
{
    for task in tasks {
        all.push(planned(*task))?;
    }
    Ok(())
}

// Lists the deletes of what is at these keys last.
fn push_deletes(alloc: Global, all: &mut Vec<Task>, keys: &[Key]) -> Result<(), OutOfMemory>
    ensures listed { IfOk result (λ _. (os : List Opened) → map (task_in os) all.new.items
        ≡ map (task_in os) all.old.items ++ map delete keys.now) }
    ensures there { IfOk result (λ _. (t : Table) → Each (IsTaskIn t) all.old.items
        → Each (IsTaskIn t) all.new.items) }
{
    for key in keys {
        let key = key.copy(alloc)?;
        all.push(Task::Delete(key))?;
    }
    Ok(())
}

/// The tasks of scopes, and then the deletes of what is at these keys.
pub fn list_all(
    alloc: Global,
    tasks: &[ScopeTask],
    deletes: &[Key],
) -> Result<Vec<Task>, OutOfMemory>
    ensures listed { IfOk result (λ v. (os : List Opened) → map (task_in os) v.items
        ≡ map (task_of os) tasks.now ++ map delete deletes.now) }
    ensures there { IfOk result (λ v. (t : Table) → Each (IsTaskOf t) tasks.now → Each (IsTaskIn t) v.items) }
{
    let mut all = Vec::new(alloc);
    push_tasks(&mut all, tasks)?;
    push_deletes(alloc, &mut all, deletes)?;
    Ok(all)
}
