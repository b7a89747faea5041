// The needs of tasks by a plain program: each pair of tasks is looked at, and each name is looked up among all lines.
// Names and elements of `dependsOn` are as `shapes.rt` has them.

use arm_plan::Task;
use arm_value::{Text, Value};
use plan_table::frame::Frame;
use plan_table::line::{Spot, State};
use plan_table::listed::Listed;
use plan_table::table::Table;
use std::alloc::AllocError;
use template_parts::Batches;

/// An instance of the scope of a frame.
#[derive(Clone, Copy, PartialEq, Eq)]
pub struct At {
    /// The number of the frame.
    pub frame: usize,
    /// The number of the resource in the template.
    pub resource: usize,
    /// The index in the loop of the resource, or 0.
    pub copy: usize,
}

/// A cell of an instance or of a resource.
#[derive(Clone, Copy, PartialEq, Eq)]
pub enum Cell {
    /// How many instances the resource has.
    Count,
    /// Whether the instance is included.
    Included,
    /// The name of the instance.
    Name,
}

// The cell of an instance, if it is one.
fn cell_of(spot: Spot) -> Option<(Cell, At)> {
    match spot {
        Spot::Count(frame, resource) => Some((Cell::Count, instance(frame, resource, 0))),
        Spot::Included(frame, resource, copy) => {
            Some((Cell::Included, instance(frame, resource, copy)))
        }
        Spot::Name(frame, resource, copy) => Some((Cell::Name, instance(frame, resource, copy))),
        _ => None,
    }
}

/// The value of a cell.
pub fn value<'t>(table: &'t Table, cell: Cell, at: At) -> Option<&'t Value> {
    for line in table.lines.as_slice() {
        if cell_of(line.spot) == Some((cell, at)) {
            return match &line.state {
                State::Value(value) => Some(value),
                _ => None,
            };
        }
    }
    None
}

/// The name of an instance.
pub fn name<'t>(table: &'t Table, at: At) -> Option<&'t Text> {
    match value(table, Cell::Name, at)? {
        Value::Text(name) => Some(name),
        _ => None,
    }
}

/// The instance of a resource of a scope.
pub fn instance(frame: usize, resource: usize, copy: usize) -> At {
    At {
        frame,
        resource,
        copy,
    }
}

// The instance that opened the scope of a frame.
fn opener(table: &Table, frame: usize) -> Option<At> {
    let frame = table.frames.as_slice().get(frame)?;
    let step = frame.position.as_slice().first()?;
    Some(instance(frame.around, step.resource, step.copy))
}

// The instance that a task starts, and the one that it ends.
fn started(table: &Table, task: &Task) -> Option<At> {
    match task {
        Task::Enter(frame) => opener(table, *frame),
        Task::Put(frame, resource, copy) => Some(instance(*frame, *resource, *copy)),
        _ => None,
    }
}

fn ended(table: &Table, task: &Task) -> Option<At> {
    match task {
        Task::Leave(frame) => opener(table, *frame),
        Task::Put(frame, resource, copy) => Some(instance(*frame, *resource, *copy)),
        _ => None,
    }
}

// The number of the frame of the scope that a task is in.
fn scope(table: &Table, task: &Task) -> Option<usize> {
    match task {
        Task::Put(frame, _, _) => Some(*frame),
        Task::Enter(frame) => opener(table, *frame).map(|at| at.frame),
        Task::Leave(frame) => opener(table, *frame).map(|at| at.frame),
        Task::Delete(_) => None,
    }
}

// Whether the first task is in the scope that the second enters.
fn is_entered(table: &Table, first: &Task, second: &Task) -> bool {
    match second {
        Task::Enter(frame) => scope(table, first) == Some(*frame),
        _ => false,
    }
}

// Whether the first task leaves the scope that the second is in, or that it enters.
fn is_left(table: &Table, first: &Task, second: &Task) -> bool {
    match first {
        Task::Leave(frame) => match second {
            Task::Enter(entered) if *entered == *frame => true,
            _ => scope(table, second) == Some(*frame),
        },
        _ => false,
    }
}

// Whether the first task deletes after the second.
fn is_deleted_after(first: &Task, second: &Task) -> bool {
    match (first, second) {
        (Task::Delete(_), Task::Leave(0)) => true,
        (Task::Delete(key), Task::Delete(child)) => key.is_parent(child),
        _ => false,
    }
}

/// What declares an instance.
pub fn listed<'t, 'a>(table: &'t Table<'a>, at: At) -> Option<&'t Listed<'a>> {
    let frame = table.frames.as_slice().get(at.frame)?;
    frame.resources.as_slice().get(at.resource)
}

// The size of the batches of a resource, where it has a serial loop.
fn batch(table: &Table, at: At) -> Option<usize> {
    match listed(table, at)?.declaration.copy.as_ref()?.batches {
        Batches::Serial(size) => Some(size as usize),
        Batches::Parallel => None,
    }
}

// Whether the second is of the batch right before that of the first.
fn is_next_batch(table: &Table, first: At, second: At) -> bool {
    match batch(table, first) {
        Some(size) if size > 0 => {
            first.frame == second.frame
                && first.resource == second.resource
                && first.copy / size == (second.copy / size).saturating_add(1)
        }
        _ => false,
    }
}

// Whether the resource has a loop of this name.
fn has_loop(listed: &Listed, name: &str) -> bool {
    match &listed.declaration.copy {
        Some(copy) => copy.name.equals_ignore_case(name),
        None => false,
    }
}

fn is_loop(frame: &Frame, name: &str) -> bool {
    for listed in frame.resources.as_slice() {
        if has_loop(listed, name) {
            return true;
        }
    }
    false
}

// What follows the dash, up to the next quote.
fn rest(text: &str) -> &str {
    let rest = text.split_once("-").unwrap_or(("", "")).1;
    rest.split_once("'").unwrap_or((rest, "")).0
}

// The type that an element has before the name, if it has one.
fn kind(text: &str) -> Option<&str> {
    let front = text.split_once("-").unwrap_or((text, "")).0;
    match front.strip_prefix("[resourceId('") {
        Some(call) => Some(call.split_once("'").unwrap_or((call, "")).0),
        None => {
            let name = front.strip_prefix("[format('").unwrap_or(front);
            name.strip_suffix("/{0}").or(name.strip_suffix("/z"))
        }
    }
}

// Whether the element has this type before the name, or none.
fn is_of_kind(text: &str, wanted: &Text) -> bool {
    match kind(text) {
        Some(kind) => wanted.equals_ignore_case(kind),
        None => true,
    }
}

// Whether the text names an instance of a scope.
fn names(table: &Table, text: &str, other: At) -> bool {
    match (
        table.frames.as_slice().get(other.frame),
        listed(table, other),
    ) {
        (Some(frame), Some(listed)) => {
            if is_loop(frame, text) {
                return has_loop(listed, text);
            }
            match name(table, other) {
                Some(name) => {
                    rest(text).eq_ignore_ascii_case(rest(name.as_str()))
                        && is_of_kind(text, &listed.kind)
                }
                None => false,
            }
        }
        _ => false,
    }
}

// Whether the first instance depends on the second, by the elements that are written.
fn depends(table: &Table, first: At, second: At) -> bool {
    if first.frame != second.frame {
        return false;
    }
    match listed(table, first) {
        Some(listed) => {
            for element in listed.declaration.depends_on.as_slice() {
                if let Value::Text(text) = element {
                    if names(table, text.as_str(), second) {
                        return true;
                    }
                }
            }
            false
        }
        None => false,
    }
}

// Whether what the first task starts has to wait for what the second ends.
fn follows(table: &Table, first: &Task, second: &Task) -> bool {
    match (started(table, first), ended(table, second)) {
        (Some(first), Some(second)) => {
            is_next_batch(table, first, second) || depends(table, first, second)
        }
        _ => false,
    }
}

fn is_needed(table: &Table, first: &Task, second: &Task) -> bool {
    is_entered(table, first, second)
        || is_left(table, first, second)
        || is_deleted_after(first, second)
        || follows(table, first, second)
}

// Adds the pairs of which this task is the first.
fn push_needs_of(
    needs: &mut Vec<(usize, usize)>,
    table: &Table,
    tasks: &[Task],
    number: usize,
    first: &Task,
) -> Result<(), AllocError> {
    for (needed, second) in tasks.iter().enumerate() {
        if is_needed(table, first, second) {
            needs.push((number, needed))?;
        }
    }
    Ok(())
}

/// Adds each pair of tasks of which the first needs the second, by their numbers.
pub fn push_plain_needs(
    needs: &mut Vec<(usize, usize)>,
    table: &Table,
    tasks: &[Task],
) -> Result<(), AllocError> {
    for (number, first) in tasks.iter().enumerate() {
        push_needs_of(needs, table, tasks, number, first)?;
    }
    Ok(())
}
