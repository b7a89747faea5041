// The needs of tasks.
ghost use Rattle.std.specs.Prelude.{◌≡◌, ◌++◌, ◌+◌, length, map, IfOk};
ghost use Rattle.reading.specs.World.{Each};
ghost use Rattle.tag_needs.specs.Tags.{tags_in, needs_from};
ghost use Rattle.plan_cells.specs.Plan.{AreNeeds};
ghost use Rattle.plan_table.specs.Opened.{opened_of};
ghost use Rattle.plan_table.specs.Whole.{whole_of};
ghost use Rattle.plan_tasks.specs.Start.{start_of, IsStartTable, IsTaskOf};
ghost use Rattle.plan_needs.specs.Needs.{all_tasks, AreElements, AreInOrder, AreWithin};
ghost use Rattle.plan_needs.specs.Lists.{values_in, tags_of_tasks, asks_of_tasks, tags_of_deletes, asks_of_deletes};

use crate::deletes::{push_delete_asks, push_delete_tags};
use crate::loops::loops_of_scopes;
use crate::tasks::{asks_of_tasks, tags_of_tasks};
use arm_ids::Key;
use arm_value::{OutOfMemory, Value};
use plan_table::table::Table;
use plan_tasks::ScopeTask;
use std::alloc::Global;
use tag_needs::list_needs;

// The tags of all tasks.
fn all_tags(
    alloc: Global,
    table: &Table,
    tasks: &[ScopeTask],
    deletes: &[Key],
) -> Result<Vec<Vec<Vec<usize>>>, OutOfMemory>
    requires table { IsStartTable table.now }
    requires tasks { Each (IsTaskOf table.now) tasks.now }
    ensures { IfOk result (λ v. tags_in v.items
        ≡ tags_of_tasks table.now tasks.now ++ tags_of_deletes table.now deletes.now) }
{
    let mut tags = tags_of_tasks(alloc, table, tasks)?;
    push_delete_tags(alloc, &mut tags, deletes)?;
    Ok(tags)
}

// Those for which all tasks ask.
fn all_asks(
    alloc: Global,
    table: &Table,
    tasks: &[ScopeTask],
    values: &[Vec<Value>],
    deletes: &[Key],
) -> Result<Vec<Vec<Vec<usize>>>, OutOfMemory>
    requires table { IsStartTable table.now }
    requires tasks { Each (IsTaskOf table.now) tasks.now }
    requires values { length values.now ≡ length tasks.now }
    ensures { IfOk result (λ v. tags_in v.items
        ≡ asks_of_tasks table.now tasks.now (values_in values.now) ++ asks_of_deletes table.now deletes.now) }
{
    let loops = loops_of_scopes(alloc, table.frames.as_slice())?;
    let mut asks = asks_of_tasks(alloc, table, loops.as_slice(), tasks, values)?;
    push_delete_asks(alloc, &mut asks, deletes)?;
    Ok(asks)
}

/// The pairs of a task and of one that it needs by what is known at the start, by their numbers: the tasks of scopes
/// come first, and then the deletes of what is at these keys. `values` has for each task of a scope the values of the
/// elements of `dependsOn` of what it starts.
pub fn needs_of_tasks(
    alloc: Global,
    table: &Table,
    tasks: &[ScopeTask],
    values: &[Vec<Value>],
    deletes: &[Key],
) -> Result<Vec<(usize, usize)>, OutOfMemory>
    requires table { IsStartTable table.now }
    requires tasks { Each (IsTaskOf table.now) tasks.now }
    requires values { AreElements table.now tasks.now (values_in values.now) }
    ensures needs { IfOk result (λ ns. AreNeeds (whole_of table.now) (start_of table.now)
        (all_tasks table.now tasks.now deletes.now) ns.items) }
    ensures order { IfOk result (λ ns. AreInOrder ns.items) }
    ensures within { IfOk result (λ ns. AreWithin (length tasks.now + length deletes.now) ns.items) }
{
    let asks = all_asks(alloc, table, tasks, values, deletes)?;
    let tags = all_tags(alloc, table, tasks, deletes)?;
    let needs = list_needs(alloc, asks.as_slice(), tags.as_slice())?;
    Ok(needs)
}
