// The tasks by a plain program: those of a scope are listed in the order of its template, and each cell is looked up
// among all lines.

use crate::plain::{At, Cell, instance, listed, name, value};
use arm_ids::{Held, Key, id_text};
use arm_plan::Task;
use arm_value::{Text, Value};
use plan_table::frame::Frame;
use plan_table::table::Table;
use std::alloc::{AllocError, Global};

// How many instances a resource has.
fn count(table: &Table, frame: usize, resource: usize) -> usize {
    match value(table, Cell::Count, instance(frame, resource, 0)) {
        Some(Value::Int(count)) => usize::try_from(*count).unwrap_or(0),
        _ => 0,
    }
}

fn is_included(table: &Table, at: At) -> bool {
    match value(table, Cell::Included, at) {
        Some(Value::Bool(included)) => *included,
        _ => false,
    }
}

// Adds the included instances of a resource.
fn push_instances(
    found: &mut Vec<At>,
    table: &Table,
    frame: usize,
    resource: usize,
) -> Result<(), AllocError> {
    for copy in 0..count(table, frame, resource) {
        let at = instance(frame, resource, copy);
        if is_included(table, at) {
            found.push(at)?;
        }
    }
    Ok(())
}

// Adds the included instances of a scope.
fn push_scope_instances(
    found: &mut Vec<At>,
    table: &Table,
    frame: usize,
    scope: &Frame,
) -> Result<(), AllocError> {
    for resource in 0..scope.resources.len() {
        push_instances(found, table, frame, resource)?;
    }
    Ok(())
}

// Adds the included instances of each scope, in the order of its resources and by index.
fn push_all_instances(found: &mut Vec<At>, table: &Table) -> Result<(), AllocError> {
    for (frame, scope) in table.frames.as_slice().iter().enumerate() {
        push_scope_instances(found, table, frame, scope)?;
    }
    Ok(())
}

// Whether an instance opens the scope of the frame.
fn is_inside(frame: &Frame, at: At) -> bool {
    match frame.position.as_slice().first() {
        Some(step) => {
            frame.around == at.frame && step.resource == at.resource && step.copy == at.copy
        }
        None => false,
    }
}

// The number of the frame of the scope that an instance opens, if it opens one.
fn inside(table: &Table, at: At) -> Option<usize> {
    for (number, frame) in table.frames.as_slice().iter().enumerate() {
        if is_inside(frame, at) {
            return Some(number);
        }
    }
    None
}

fn push_one(tasks: &mut Vec<Task>, task: Task) -> Result<(), AllocError> {
    tasks.push(task)?;
    Ok(())
}

// Adds the tasks of a scope, in which scopes nest so deep at most. All instances are these.
fn push_scope(
    tasks: &mut Vec<Task>,
    table: &Table,
    all: &[At],
    frame: usize,
    depth: u32,
) -> Result<(), AllocError> {
    push_one(tasks, Task::Enter(frame))?;
    for at in all {
        if at.frame == frame {
            match inside(table, *at) {
                Some(inside) if depth > 0 => push_scope(tasks, table, all, inside, depth - 1)?,
                _ => push_one(tasks, Task::Put(at.frame, at.resource, at.copy))?,
            }
        }
    }
    push_one(tasks, Task::Leave(frame))
}

// Whether the id is that of an instance, whatever the case of its letters.
fn has_id(alloc: Global, table: &Table, at: At, id: &Text) -> bool {
    match (listed(table, at), name(table, at)) {
        (Some(listed), Some(name)) => {
            match id_text(alloc, table.place, listed.kind.as_str(), name.as_str()) {
                Ok(found) => found.equals_ignore_case(id.as_str()),
                Err(_fault) => false,
            }
        }
        _ => false,
    }
}

// Whether one of the tasks puts what has the id.
fn is_put(alloc: Global, table: &Table, tasks: &[Task], id: &Text) -> bool {
    for task in tasks {
        if let Task::Put(frame, resource, copy) = task {
            if has_id(alloc, table, instance(*frame, *resource, *copy), id) {
                return true;
            }
        }
    }
    false
}

// Adds the deletion of what is held at the id, where it is in the group `g` and is not put.
fn push_delete(
    alloc: Global,
    tasks: &mut Vec<Task>,
    table: &Table,
    id: &Text,
) -> Result<(), AllocError> {
    let is_ours = id
        .as_str()
        .starts_with("/subscriptions/s/resourceGroups/g/");
    if !is_ours || is_put(alloc, table, tasks.as_slice(), id) {
        return Ok(());
    }
    match Key::read_id(alloc, id.as_str()) {
        Ok(key) => push_one(tasks, Task::Delete(key)),
        Err(_) => Ok(()),
    }
}

// Adds the deletion of what is held and not put.
fn push_deletes(
    alloc: Global,
    tasks: &mut Vec<Task>,
    table: &Table,
    held: &Held,
) -> Result<(), AllocError> {
    for number in 0..held.len() {
        match held.at(number) {
            Some(entry) => push_delete(alloc, tasks, table, &entry.id)?,
            None => {}
        }
    }
    Ok(())
}

// Adds the tasks of all scopes.
fn push_scopes(alloc: Global, tasks: &mut Vec<Task>, table: &Table) -> Result<(), AllocError> {
    let mut all = Vec::new(alloc);
    push_all_instances(&mut all, table)?;
    push_scope(tasks, table, all.as_slice(), 0, 2)
}

/// Adds the tasks of a deployment in complete mode, in which scopes nest at most two deep.
pub fn push_plain_tasks(
    alloc: Global,
    tasks: &mut Vec<Task>,
    table: &Table,
    held: &Held,
) -> Result<(), AllocError> {
    push_scopes(alloc, tasks, table)?;
    push_deletes(alloc, tasks, table, held)
}
