// The tags of the tasks of scopes, and those for which they ask.
ghost use Rattle.std.specs.Prelude.{◌≡◌, ◌<◌, ◌++◌, ◌∷◌, [], List, map, length, IfOk};
ghost use Rattle.arm_value.specs.Json.{Json};
ghost use Rattle.arm_value.specs.View.{json};
ghost use Rattle.reading.specs.World.{Each};
ghost use Rattle.tag_needs.specs.Tags.{tags_of, tags_in};
ghost use Rattle.plan_cells.specs.Tasks.{enter, leave};
ghost use Rattle.name_tags.specs.TaskCodes.{task_tags, task_asks};
ghost use Rattle.plan_table.specs.Whole.{whole_of, scopes_of};
ghost use Rattle.plan_table.specs.Found.{scope_at};
ghost use Rattle.plan_tasks.specs.Start.{start_of, IsStartTable, IsTaskOf, task_of};
ghost use Rattle.plan_needs.specs.Numbers.{number_in};
ghost use Rattle.plan_needs.specs.Needs.{scope_loops};
ghost use Rattle.plan_needs.specs.Order.{entry_code, inside_code, left_code};
ghost use Rattle.plan_needs.specs.Lists.{tags_of_tasks, asks_of_tasks, values_in};

use crate::instance::{end_tags, start_asks};
use crate::order::{push_entry, push_inside, push_left};
use arm_value::{OutOfMemory, Value};
use name_set::NameSet;
use plan_openers::{Opener, opener_of};
use plan_table::table::Table;
use plan_tasks::ScopeTask;
use std::alloc::Global;

// The tag of a task that enters the root.
fn root_tags(alloc: Global, scope: usize) -> Result<Vec<Vec<usize>>, OutOfMemory>
    ensures { IfOk result (λ v. tags_of v ≡ entry_code scope ∷ []) }
{
    let mut tags = Vec::new(alloc);
    push_entry(alloc, &mut tags, scope)?;
    Ok(tags)
}

// The tags of a task that enters a scope in the scope of another number.
fn inner_tags(alloc: Global, scope: usize, around: usize) -> Result<Vec<Vec<usize>>, OutOfMemory>
    ensures { IfOk result (λ v. tags_of v ≡ entry_code scope ∷ inside_code around ∷ []) }
{
    let mut tags = root_tags(alloc, scope)?;
    push_inside(alloc, &mut tags, around)?;
    Ok(tags)
}

// The tags of a task that enters a scope: that scope's, and that it is of the scope around.
fn enter_tags(alloc: Global, table: &Table, scope: usize) -> Result<Vec<Vec<usize>>, OutOfMemory>
    requires table { IsStartTable table.now }
    requires there { scope < length table.now.frames.items }
    ensures { IfOk result (λ v. tags_of v ≡ task_tags (whole_of table.now) (number_in (scopes_of table.now))
        (start_of table.now) (enter (scope_at table.now scope).position)) }
{
    match opener_of(table, scope) {
        Some(opener) => inner_tags(alloc, scope, opener.frame),
        None => root_tags(alloc, scope),
    }
}

// The tag of a task that leaves the root.
fn left_tags(alloc: Global) -> Result<Vec<Vec<usize>>, OutOfMemory>
    ensures { IfOk result (λ v. tags_of v ≡ left_code ∷ []) }
{
    let mut tags = Vec::new(alloc);
    push_left(alloc, &mut tags)?;
    Ok(tags)
}

// The tags of a task that leaves a scope: those of one that ends the instance that opened it.
fn leave_tags(alloc: Global, table: &Table, scope: usize) -> Result<Vec<Vec<usize>>, OutOfMemory>
    requires table { IsStartTable table.now }
    requires there { scope < length table.now.frames.items }
    ensures { IfOk result (λ v. tags_of v ≡ task_tags (whole_of table.now) (number_in (scopes_of table.now))
        (start_of table.now) (leave (scope_at table.now scope).position)) }
{
    match opener_of(table, scope) {
        Some(opener) => end_tags(alloc, table, opener),
        None => left_tags(alloc),
    }
}

// The tags of a task.
fn task_tags(alloc: Global, table: &Table, task: ScopeTask) -> Result<Vec<Vec<usize>>, OutOfMemory>
    requires table { IsStartTable table.now }
    requires task { IsTaskOf table.now task }
    ensures { IfOk result (λ v. tags_of v ≡ task_tags (whole_of table.now) (number_in (scopes_of table.now))
        (start_of table.now) (task_of (scopes_of table.now) task)) }
{
    match task {
        ScopeTask::Enter(scope) => enter_tags(alloc, table, scope),
        ScopeTask::Put(frame, resource, copy) => {
            let opener = Opener {
                frame,
                resource,
                copy,
            };
            end_tags(alloc, table, opener)
        }
        ScopeTask::Leave(scope) => leave_tags(alloc, table, scope),
    }
}

/// The tags of these tasks.
pub fn tags_of_tasks(
    alloc: Global,
    table: &Table,
    tasks: &[ScopeTask],
) -> Result<Vec<Vec<Vec<usize>>>, OutOfMemory>
    requires table { IsStartTable table.now }
    requires tasks { Each (IsTaskOf table.now) tasks.now }
    ensures { IfOk result (λ v. tags_in v.items ≡ tags_of_tasks table.now tasks.now) }
{
    let mut all = Vec::new(alloc);
    'tasks: for task in tasks {
        let tags = task_tags(alloc, table, *task)?;
        all.push(tags)?;
    }
    Ok(all)
}

// Those for which a task asks that enters a scope: those of one that starts the instance that opened it.
fn enter_asks(
    alloc: Global,
    table: &Table,
    loops: &[NameSet],
    scope: usize,
    values: &[Value],
) -> Result<Vec<Vec<usize>>, OutOfMemory>
    requires table { IsStartTable table.now }
    requires loops { loops.now ≡ map scope_loops (scopes_of table.now) }
    requires there { scope < length table.now.frames.items }
    ensures { IfOk result (λ v. tags_of v ≡ task_asks (whole_of table.now) (number_in (scopes_of table.now))
        (enter (scope_at table.now scope).position) (map json values.now)) }
{
    match opener_of(table, scope) {
        Some(opener) => start_asks(alloc, table, loops, opener, values),
        None => Ok(Vec::new(alloc)),
    }
}

// Lists each task of a scope, and its entry.
fn push_scope(alloc: Global, asks: &mut Vec<Vec<usize>>, scope: usize) -> Result<(), OutOfMemory>
    ensures { IfOk result (λ _. tags_of asks.new ≡ tags_of asks.old ++ (inside_code scope ∷ entry_code scope ∷ [])) }
{
    push_inside(alloc, asks, scope)?;
    push_entry(alloc, asks, scope)
}

// Those for which a task asks that leaves the root.
fn root_asks(alloc: Global, scope: usize) -> Result<Vec<Vec<usize>>, OutOfMemory>
    ensures { IfOk result (λ v. tags_of v ≡ inside_code scope ∷ entry_code scope ∷ []) }
{
    let mut asks = Vec::new(alloc);
    push_scope(alloc, &mut asks, scope)?;
    Ok(asks)
}

// Those for which a task asks that leaves a scope in the scope of another number.
fn inner_asks(alloc: Global, scope: usize, around: usize) -> Result<Vec<Vec<usize>>, OutOfMemory>
    ensures { IfOk result (λ v. tags_of v ≡ entry_code around ∷ inside_code scope ∷ entry_code scope ∷ []) }
{
    let mut asks = root_tags(alloc, around)?;
    push_scope(alloc, &mut asks, scope)?;
    Ok(asks)
}

// Those for which a task asks that leaves a scope: the entry of the scope around, each task of the scope that is left,
// and its entry.
fn leave_asks(alloc: Global, table: &Table, scope: usize) -> Result<Vec<Vec<usize>>, OutOfMemory>
    requires table { IsStartTable table.now }
    requires there { scope < length table.now.frames.items }
    ensures { IfOk result (λ v. (vs : List Json) → tags_of v ≡ task_asks (whole_of table.now)
        (number_in (scopes_of table.now)) (leave (scope_at table.now scope).position) vs) }
{
    match opener_of(table, scope) {
        Some(opener) => inner_asks(alloc, scope, opener.frame),
        None => root_asks(alloc, scope),
    }
}

// Those for which a task asks.
fn task_asks(
    alloc: Global,
    table: &Table,
    loops: &[NameSet],
    task: ScopeTask,
    values: &[Value],
) -> Result<Vec<Vec<usize>>, OutOfMemory>
    requires table { IsStartTable table.now }
    requires loops { loops.now ≡ map scope_loops (scopes_of table.now) }
    requires task { IsTaskOf table.now task }
    ensures { IfOk result (λ v. tags_of v ≡ task_asks (whole_of table.now) (number_in (scopes_of table.now))
        (task_of (scopes_of table.now) task) (map json values.now)) }
{
    match task {
        ScopeTask::Enter(scope) => enter_asks(alloc, table, loops, scope, values),
        ScopeTask::Put(frame, resource, copy) => {
            let opener = Opener {
                frame,
                resource,
                copy,
            };
            start_asks(alloc, table, loops, opener, values)
        }
        ScopeTask::Leave(scope) => leave_asks(alloc, table, scope),
    }
}

/// Those for which these tasks ask, with the values of the elements of `dependsOn` of what each starts.
pub fn asks_of_tasks(
    alloc: Global,
    table: &Table,
    loops: &[NameSet],
    tasks: &[ScopeTask],
    values: &[Vec<Value>],
) -> Result<Vec<Vec<Vec<usize>>>, OutOfMemory>
    requires table { IsStartTable table.now }
    requires loops { loops.now ≡ map scope_loops (scopes_of table.now) }
    requires tasks { Each (IsTaskOf table.now) tasks.now }
    requires values { length values.now ≡ length tasks.now }
    ensures { IfOk result (λ v. tags_in v.items ≡ asks_of_tasks table.now tasks.now (values_in values.now)) }
{
    let mut all = Vec::new(alloc);
    'tasks: for number in 0..tasks.len() {
        let asks = task_asks(
            alloc,
            table,
            loops,
            tasks[number],
            values[number].as_slice(),
        )?;
        all.push(asks)?;
    }
    Ok(all)
}
