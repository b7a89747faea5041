// Whether tasks are of a table.
ghost use Rattle.std.specs.Prelude.{◌<◌, ◌≤◌, ℕ, List, Option, IfOk, Decides, length};
ghost use Rattle.reading.specs.World.{Each};
ghost use Rattle.tag_places.specs.Places.{Tag, ArePlaces};
ghost use Rattle.plan_table.specs.Listed.{listed_of};
ghost use Rattle.history_plans.specs.Task.TheVariants.{Put};
ghost use Rattle.plan_numbers.specs.Numbers.{IsOfTable, HasPlace, IsPutResource};

use crate::looking::scope_tag;
use arm_value::OutOfMemory;
use history_plans::Task;
use plan_table::counting::MAX_INSTANCES_OF_TEMPLATE;
use plan_table::listed::Listed;
use plan_table::table::Table;
use std::alloc::Global;
use tag_places::{Places, first_place};
use template_tree::Body;

// Whether the resource is put: it is no nested deployment, and not existing.
fn is_put(listed: &Listed) -> bool
    ensures { Decides result (IsPutResource (listed_of listed.now)) }
{
    if listed.declaration.existing {
        return false;
    }
    match listed.body {
        Body::Members(_) => true,
        Body::Deployment(_) => false,
    }
}

// Whether the instance is of a resource of the scope that is put.
fn is_instance(table: &Table, frame: usize, resource: usize, copy: usize) -> bool
    ensures { Decides result (IsOfTable table.now (Put frame resource copy)) }
{
    if copy >= MAX_INSTANCES_OF_TEMPLATE || frame >= table.frames.len() {
        return false;
    }
    let resources = table.frames[frame].resources.as_slice();
    if resource >= resources.len() {
        return false;
    }
    is_put(&resources[resource])
}

// Whether the task is of the table.
fn is_of_table(table: &Table, task: &Task) -> bool
    ensures { Decides result (IsOfTable table.now task.now) }
{
    match task {
        Task::Enter(frame) => *frame < table.frames.len(),
        Task::Put(frame, resource, copy) => is_instance(table, *frame, *resource, *copy),
        Task::Leave(frame) => *frame < table.frames.len(),
        Task::Delete(_) => true,
    }
}

/// Whether the numbers of the tasks have at most 32 bits.
pub(crate) fn are_few(tasks: &[Task]) -> bool
    ensures { Decides result (length tasks.now ≤ 4294967295) }
{
    tasks.len() <= 4_294_967_295
}

/// Whether each task is of the table.
pub(crate) fn are_of_table(table: &Table, tasks: &[Task]) -> bool
    ensures { Decides result (Each (IsOfTable table.now) tasks.now) }
{
    'tasks: for task in tasks {
        if !is_of_table(table, task) {
            return false;
        }
    }
    true
}

/// Whether each of so many scopes has a place.
pub(crate) fn have_places(alloc: Global, places: &Places, count: usize) -> Result<bool, OutOfMemory>
    ensures { (os : List (Option Tag)) → ArePlaces places.now os
        → IfOk result (λ b. Decides b ((f : ℕ) → f < count → HasPlace os f)) }
{
    'scopes: for frame in 0..count {
        let tag = scope_tag(alloc, frame)?;
        if first_place(places, &tag).is_none() {
            return Ok(false);
        }
    }
    Ok(true)
}
