// What there is to do, in lines of text: the tasks in their order, and the keys at which they put.
ghost use Rattle.std.specs.Prelude.{MatchOption};
ghost use Rattle.reading.specs.World.{Each};
ghost use Rattle.plan_filling.specs.Steps.{Filled};
ghost use Rattle.plan_table.specs.Whole.{whole_of, rows_in, IsLaid};
ghost use Rattle.plan_tasks.specs.Start.{IsStartTable, IsTaskOf};
ghost use Rattle.plan_start.specs.Sheets.{IsSheet};

use crate::cells::{push_cell, push_cells, push_circle, push_scope};
use crate::plain::push_plainly;
use arm_ids::Key;
use plan_start::start::Outcome;
use plan_table::table::Table;
use plan_tasks::{ScopeTask, find_unanswered, list_keys, list_tasks};
use std::alloc::{AllocError, Global};

/// Adds a task.
pub fn push_task(out: &mut String, table: &Table, task: ScopeTask) -> Result<(), AllocError> {
    match task {
        ScopeTask::Enter(frame) => {
            out.push_str(" enter ")?;
            push_scope(out, table, frame)
        }
        ScopeTask::Put(frame, resource, copy) => {
            out.push_str(" put ")?;
            push_scope(out, table, frame)?;
            write!(out, "{resource}.{copy}")
        }
        ScopeTask::Leave(frame) => {
            out.push_str(" leave ")?;
            push_scope(out, table, frame)
        }
    }
}

fn push_keys(out: &mut String, keys: Option<Vec<Key>>) -> Result<(), AllocError> {
    out.push_str("keys")?;
    match keys {
        Some(keys) => for key in keys.as_slice() {
            write!(out, " {}", key.id().as_str())?;
        },
        None => out.push_str(" none")?,
    }
    out.push('\n')
}

fn push_tasks(out: &mut String, alloc: Global, table: &Table) -> Result<(), AllocError>
    requires { IsStartTable table.now }
{
    let tasks = list_tasks(alloc, table)?;
    let keys = list_keys(alloc, table, tasks.as_slice())?;
    push_keys(out, keys)?;
    out.push_str("tasks")?;
    for task in tasks.as_slice() {
        push_task(out, table, *task)?;
    }
    out.push_str("\nplainly")?;
    push_plainly(out, table, 0, 8)?;
    out.push('\n')
}

fn push_unanswered(out: &mut String, table: &Table, at: usize) -> Result<(), AllocError> {
    out.push_str("unanswered ")?;
    match table.lines.as_slice().get(at) {
        Some(line) => push_cell(out, table, line.spot)?,
        None => out.push('?')?,
    }
    out.push('\n')
}

// What there is to do, or the first count, condition or name that has no value.
fn push_work(out: &mut String, alloc: Global, table: &Table) -> Result<(), AllocError>
    requires laid { IsLaid table.now }
    requires filled { Filled (whole_of table.now) (rows_in table.now) }
{
    match find_unanswered(table) {
        Some(at) => push_unanswered(out, table, at),
        None => push_tasks(out, alloc, table),
    }
}

/// Adds what is known, in lines: each cell, and then what there is to do, or the cells of a circle.
pub fn push_known(out: &mut String, alloc: Global, known: &Outcome) -> Result<(), AllocError>
    requires sheet { IsSheet known.now.start.register }
    requires filled { MatchOption known.now.circle
        (Filled (whole_of known.now.start.register.table) (rows_in known.now.start.register.table))
        (λ _. Unit {0}) }
{
    let table = &known.start.register.table;
    push_cells(out, alloc, table)?;
    match &known.circle {
        Some(circle) => push_circle(out, table, circle),
        None => push_work(out, alloc, table),
    }
}
