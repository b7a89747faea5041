//! Tasks and needs in lines of text.

use arm_plan::Task;
use plan_table::frame::Instance;
use plan_table::table::Table;
use std::alloc::AllocError;

fn push_instance(out: &mut String, instance: &Instance) -> Result<(), AllocError> {
    write!(out, "{}.{}/", instance.resource, instance.copy)
}

/// Adds the position of a scope: a slash, and the instances of nested deployments that lead to it, the outermost first.
pub fn push_position(out: &mut String, position: &[Instance]) -> Result<(), AllocError> {
    out.push('/')?;
    for instance in position.iter().rev() {
        push_instance(out, instance)?;
    }
    Ok(())
}

fn push_scope(out: &mut String, table: &Table, frame: usize) -> Result<(), AllocError> {
    match table.frames.as_slice().get(frame) {
        Some(frame) => push_position(out, frame.position.as_slice()),
        None => out.push('?'),
    }
}

// The id from the provider on, where it is in the group `g` of the subscription `s`.
fn in_group(id: &str) -> &str {
    id.strip_prefix("/subscriptions/s/resourcegroups/g/providers/")
        .unwrap_or(id)
}

fn push_at(out: &mut String, table: &Table, word: &str, frame: usize) -> Result<(), AllocError> {
    out.push_str(word)?;
    push_scope(out, table, frame)
}

fn push_put(
    out: &mut String,
    table: &Table,
    frame: usize,
    resource: usize,
    copy: usize,
) -> Result<(), AllocError> {
    push_at(out, table, "put ", frame)?;
    write!(out, "{resource}.{copy}")
}

// Adds a task.
fn push_task(out: &mut String, table: &Table, task: &Task) -> Result<(), AllocError> {
    match task {
        Task::Enter(frame) => push_at(out, table, "enter ", *frame),
        Task::Put(frame, resource, copy) => push_put(out, table, *frame, *resource, *copy),
        Task::Leave(frame) => push_at(out, table, "leave ", *frame),
        Task::Delete(key) => write!(out, "delete {}", in_group(key.id().as_str())),
    }
}

fn push_listed(out: &mut String, table: &Table, task: &Task) -> Result<(), AllocError> {
    out.push(' ')?;
    push_task(out, table, task)
}

fn push_numbered(
    out: &mut String,
    table: &Table,
    number: usize,
    task: &Task,
) -> Result<(), AllocError> {
    write!(out, "task {number} ")?;
    push_task(out, table, task)?;
    out.push('\n')
}

// Adds the tasks in one line, and a line for their count.
fn push_list(out: &mut String, table: &Table, tasks: &[Task]) -> Result<(), AllocError> {
    out.push_str("tasks")?;
    for task in tasks {
        push_listed(out, table, task)?;
    }
    write!(out, "\ncount {}\n", tasks.len())
}

/// Adds the tasks in one line, their count, and a line for each with its number.
pub fn push_tasks(out: &mut String, table: &Table, tasks: &[Task]) -> Result<(), AllocError> {
    push_list(out, table, tasks)?;
    for (number, task) in tasks.iter().enumerate() {
        push_numbered(out, table, number, task)?;
    }
    Ok(())
}

/// Adds a line: the first task needs the second.
pub fn push_need(
    out: &mut String,
    table: &Table,
    first: &Task,
    second: &Task,
) -> Result<(), AllocError> {
    push_task(out, table, first)?;
    out.push_str(" needs ")?;
    push_task(out, table, second)?;
    out.push('\n')
}

// The same by the numbers of the tasks.
fn push_pair(
    out: &mut String,
    table: &Table,
    tasks: &[Task],
    pair: (usize, usize),
) -> Result<(), AllocError> {
    match (tasks.get(pair.0), tasks.get(pair.1)) {
        (Some(first), Some(second)) => push_need(out, table, first, second),
        _ => out.push_str("?\n"),
    }
}

/// Adds a line for each need.
pub fn push_needs(
    out: &mut String,
    table: &Table,
    tasks: &[Task],
    needs: &[(usize, usize)],
) -> Result<(), AllocError> {
    for pair in needs {
        push_pair(out, table, tasks, *pair)?;
    }
    Ok(())
}
