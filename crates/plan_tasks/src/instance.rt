// The instances of the resources of a table.
ghost use Rattle.std.specs.Prelude.{◌≡◌, ◌<◌, IfOk, Some, length, slice_get};
ghost use Rattle.arm_value.specs.View.{json};
ghost use Rattle.reading.specs.Knowledge.{known_value};
ghost use Rattle.deploy_cells.specs.Cells.{copies};
ghost use Rattle.plan_cells.specs.Resources as cells;
ghost use Rattle.plan_table.specs.Rows.{known_by};
ghost use Rattle.plan_table.specs.Lines.{status_in};
ghost use Rattle.plan_table.specs.Found.{scope_at};
ghost use Rattle.plan_tasks.specs.Start.{IsStartTable, copies_of, IsInstance, IsFound, found_by};
ghost use Rattle.arm_value.specs.Kinds.{is_true};

use arm_value::{OutOfMemory, Value};
use plan_table::line::State;
use plan_table::table::Table;
use std::alloc::Global;
use template_tree::Body;

/// What an instance of a resource is.
#[derive(Clone, Copy)]
pub enum Found {
    /// Its condition is false.
    LeftAway,
    /// It is put.
    Resource,
    /// It is a nested deployment, whose scope has the frame of this number.
    Scope(usize),
}

// The number of instances that a count says.
fn copies_of(value: &Value) -> usize
    ensures { result ≡ copies (Some (json value.now)) }
{
    match value {
        Value::Int(number) => if *number < 0 { 0 } else { *number as usize },
        _ => 0,
    }
}

// Whether the value is true.
fn is_true(value: &Value) -> bool
    ensures { result ≡ is_true (Some (json value.now)) }
{
    match value {
        Value::Bool(truth) => *truth,
        _ => false,
    }
}

// The number of instances that the state of a count says.
fn copies_by(state: &State) -> usize
    ensures { result ≡ copies (known_value (known_by (Some (status_in state.now)))) }
{
    match state {
        State::Value(value) => copies_of(value),
        State::New => 0,
        State::Open => 0,
        State::Empty => 0,
        State::Late(_) => 0,
    }
}

// Whether the state of a condition says that the instance is included.
fn is_true_by(state: &State) -> bool
    ensures { result ≡ is_true (known_value (known_by (Some (status_in state.now)))) }
{
    match state {
        State::Value(value) => is_true(value),
        State::New => false,
        State::Open => false,
        State::Empty => false,
        State::Late(_) => false,
    }
}

/// How many instances a resource has; none where it is existing.
pub fn count_copies(
    alloc: Global,
    table: &Table,
    frame: usize,
    resource: usize,
) -> Result<usize, OutOfMemory>
    requires table { IsStartTable table.now }
    requires there { frame < length table.now.frames.items }
    ensures { IfOk result (λ n. (x : cells.Listed)
        → slice_get (scope_at table.now frame).resources resource ≡ Some x
        → n ≡ copies_of table.now frame resource x) }
{
    match table.count_line(alloc, frame, resource)? {
        Some(line) => Ok(copies_by(&table.lines[line].state)),
        None => Ok(0),
    }
}

// What an instance is that is included, and whose line has this frame as the one that it opened.
fn included_as(table: &Table, frame: usize, resource: usize, opened: usize) -> Found
    requires there { frame < length table.now.frames.items }
    requires resource { resource < length (scope_at table.now frame).resources }
    ensures { (x : cells.Listed) → slice_get (scope_at table.now frame).resources resource ≡ Some x
        → result ≡ found_by (cells.nested_in x.content) opened }
{
    match table.frames[frame].resources[resource].body {
        Body::Members(_) => Found::Resource,
        Body::Deployment(_) => Found::Scope(opened),
    }
}

/// What an instance of a resource is.
pub fn find_instance(
    alloc: Global,
    table: &Table,
    frame: usize,
    resource: usize,
    copy: usize,
) -> Result<Found, OutOfMemory>
    requires table { IsStartTable table.now }
    requires instance { IsInstance table.now frame resource copy }
    ensures { IfOk result (λ f. (x : cells.Listed)
        → slice_get (scope_at table.now frame).resources resource ≡ Some x
        → IsFound table.now frame resource copy x f) }
{
    match table.included_line(alloc, frame, resource, copy)? {
        Some(line) => if is_true_by(&table.lines[line].state) {
            Ok(included_as(table, frame, resource, table.lines[line].opened))
        } else {
            Ok(Found::LeftAway)
        },
        None => unreachable!(),
    }
}
