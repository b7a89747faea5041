// Two ordered lists of tasks: those that enter or leave scopes, and the others.

ghost use Rattle.std.specs.Prelude.{◌≡◌, ◌<◌, ◌≤◌, ◌^◌, ◌⊎◌, ℕ, length, true, false, slice_index_or, OnOk};
ghost use Rattle.depend_graph.specs.Shape.{Shape, times, undone_needs};
ghost use Rattle.task_agenda.specs.Lists.{ListsMore, IsSeenTo, is_listed_in, Adds, Loses, IsLeast};

use arm_value::OutOfMemory;
use depend_graph::Graph;
use std::alloc::AllocError;
use std::collections::BTreeSet;

// Adds a task to a list.
fn add(list: &mut BTreeSet<u32>, task: u32) -> Result<(), OutOfMemory>
    ensures { Adds list.old list.new task result }
{
    match list.insert(task) {
        Ok(_) => Ok(()),
        Err(_) => Err(AllocError),
    }
}

// Lists the task in the list that is its own.
fn list(
    kinds: &[bool],
    scopes: &mut BTreeSet<u32>,
    acts: &mut BTreeSet<u32>,
    task: u32,
) -> Result<(), OutOfMemory>
    requires { task < length kinds.now }
    ensures more { (g : Shape) → length (undone_needs g task) ≡ 0
        → ListsMore g kinds.now scopes.old acts.old scopes.new acts.new }
    ensures listed { OnOk result (is_listed_in kinds.now scopes.new acts.new task ≡ true) }
{
    if kinds[task as usize] {
        add(scopes, task)
    } else {
        add(acts, task)
    }
}

/// Lists the task, if all that it needs is done.
pub fn list_if_ready(
    graph: &Graph,
    kinds: &[bool],
    scopes: &mut BTreeSet<u32>,
    acts: &mut BTreeSet<u32>,
    task: u32,
) -> Result<(), OutOfMemory>
    requires within { task < length kinds.now }
    requires sizes { length graph.now.needs ≡ length kinds.now }
    ensures more { ListsMore graph.now kinds.now scopes.old acts.old scopes.new acts.new }
    ensures seen_to { OnOk result (IsSeenTo graph.now kinds.now scopes.new acts.new task) }
{
    if graph.unmet(task) > 0 {
        return Ok(());
    }
    list(kinds, scopes, acts, task)
}

/// Lists those of the tasks of which all needs are done.
pub fn list_each(
    graph: &Graph,
    kinds: &[bool],
    scopes: &mut BTreeSet<u32>,
    acts: &mut BTreeSet<u32>,
    tasks: &[u32],
) -> Result<(), OutOfMemory>
    requires within { (u : ℕ) → 1 ≤ times tasks.now u → u < length kinds.now }
    requires sizes { length graph.now.needs ≡ length kinds.now }
    ensures more { ListsMore graph.now kinds.now scopes.old acts.old scopes.new acts.new }
    ensures seen_to { OnOk result ((u : ℕ) → 1 ≤ times tasks.now u
        → IsSeenTo graph.now kinds.now scopes.new acts.new u) }
{
    for task in tasks {
        list_if_ready(graph, kinds, scopes, acts, *task)?;
    }
    Ok(())
}

/// Lists all tasks of which all needs are done.
pub fn list_all(
    graph: &Graph,
    kinds: &[bool],
    scopes: &mut BTreeSet<u32>,
    acts: &mut BTreeSet<u32>,
) -> Result<(), OutOfMemory>
    requires few { length kinds.now < 2 ^ 32 }
    requires sizes { length graph.now.needs ≡ length kinds.now }
    ensures more { ListsMore graph.now kinds.now scopes.old acts.old scopes.new acts.new }
    ensures seen_to { OnOk result ((u : ℕ) → u < length kinds.now
        → IsSeenTo graph.now kinds.now scopes.new acts.new u) }
{
    for task in 0..kinds.len() {
        list_if_ready(graph, kinds, scopes, acts, task as u32)?;
    }
    Ok(())
}

/// The least of a list.
pub fn least(list: &BTreeSet<u32>) -> Option<u32>
    ensures { IsLeast list.now result }
{
    list.first().copied()
}

/// Takes a task off the lists.
pub fn take_off(scopes: &mut BTreeSet<u32>, acts: &mut BTreeSet<u32>, task: u32)
    ensures scopes { Loses scopes.old scopes.new task }
    ensures acts { Loses acts.old acts.new task }
{
    scopes.remove(&task);
    acts.remove(&task);
}
