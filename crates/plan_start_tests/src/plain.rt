// The tasks of a deployment by a plain program: it goes over scopes, resources and indices, and looks each cell up
// among all lines.

use crate::work::push_task;
use arm_value::Value;
use plan_table::frame::Frame;
use plan_table::line::{Spot, State};
use plan_table::table::Table;
use plan_tasks::ScopeTask;
use std::alloc::AllocError;

// Whether the spot is the one of a resource, and of an instance of it.
fn is_count(spot: Spot, frame: usize, resource: usize) -> bool {
    match spot {
        Spot::Count(f, r) => f == frame && r == resource,
        _ => false,
    }
}

fn is_included(spot: Spot, frame: usize, resource: usize, copy: usize) -> bool {
    match spot {
        Spot::Included(f, r, i) => f == frame && r == resource && i == copy,
        _ => false,
    }
}

// How many instances a resource has.
fn copies(table: &Table, frame: usize, resource: usize) -> usize {
    for line in table.lines.as_slice() {
        if is_count(line.spot, frame, resource) {
            return match &line.state {
                State::Value(Value::Int(number)) => usize::try_from(*number).unwrap_or(0),
                _ => 0,
            };
        }
    }
    0
}

// Whether the instance is included.
fn included(table: &Table, frame: usize, resource: usize, copy: usize) -> bool {
    for line in table.lines.as_slice() {
        if is_included(line.spot, frame, resource, copy) {
            return match &line.state {
                State::Value(Value::Bool(truth)) => *truth,
                _ => false,
            };
        }
    }
    false
}

// Whether the frame is of the scope that the instance opened.
fn is_opened(frame: &Frame, around: usize, resource: usize, copy: usize) -> bool {
    match frame.position.as_slice().first() {
        Some(step) => { frame.around == around && step.resource == resource && step.copy == copy }
        None => false,
    }
}

// The number of the frame that the instance opened.
fn opened(table: &Table, around: usize, resource: usize, copy: usize) -> Option<usize> {
    for (number, frame) in table.frames.as_slice().iter().enumerate() {
        if is_opened(frame, around, resource, copy) {
            return Some(number);
        }
    }
    None
}

fn count_resources(table: &Table, frame: usize) -> usize {
    match table.frames.as_slice().get(frame) {
        Some(frame) => frame.resources.len(),
        None => 0,
    }
}

// Adds the task of an instance that is put.
fn push_put(
    out: &mut String,
    table: &Table,
    frame: usize,
    resource: usize,
    copy: usize,
) -> Result<(), AllocError> {
    push_task(out, table, ScopeTask::Put(frame, resource, copy))
}

/// Adds the tasks of the scope of a frame, whose templates nest no deeper than this.
pub fn push_plainly(
    out: &mut String,
    table: &Table,
    frame: usize,
    depth: u32,
) -> Result<(), AllocError> {
    push_task(out, table, ScopeTask::Enter(frame))?;
    for resource in 0..count_resources(table, frame) {
        for copy in 0..copies(table, frame, resource) {
            if included(table, frame, resource, copy) {
                match opened(table, frame, resource, copy) {
                    Some(inside) if depth > 0 => push_plainly(out, table, inside, depth - 1)?,
                    _ => push_put(out, table, frame, resource, copy)?,
                }
            }
        }
    }
    push_task(out, table, ScopeTask::Leave(frame))
}
