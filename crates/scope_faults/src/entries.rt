// The first parameter or variable of a scope that has no value, and its fault.
ghost use Rattle.std.specs.Prelude.{◌≡◌, ◌<◌, length, IfOk};
ghost use Rattle.arm_value.specs.View.{json};
ghost use Rattle.reading.specs.Knowledge.{value};
ghost use Rattle.std.specs.Prelude.{Some};
ghost use Rattle.plan_table.specs.declared.table.Table as tables;
ghost use Rattle.plan_table.specs.Lines.{line_at};
ghost use Rattle.scope_outputs.specs.Symbols.{IsComplete};
ghost use Rattle.deploy_cells.specs.Cells.{Cell};
ghost use Rattle.point_rows.specs.declared.later.Later as laters;
ghost use Rattle.point_rows.specs.Rows.{IsFit, IsEntrySpot};
ghost use Rattle.scope_outputs.specs.Entries.{line_cell, AreTold, AreOwnLines, IsOwnLine, IsAnswerNow, cells_at};
ghost use Rattle.scope_faults.specs.Faults.{raw_told, IsBroken, SaysCell, IsValued, HasNone, IsFirstLine, IsEntryFault};

use crate::values::{no_fault, parameter_fault, said_of};
use arm_env::stop::let_go;
use arm_value::{OutOfMemory, Value};
use plan_filling::sheet::Answer;
use plan_paths::line_path;
use plan_table::line::Spot;
use point_rows::later::{Entry, Later};
use scope_outputs::answer::{entry_told, raw_told};
use scope_outputs::declared::parameter_at;
use scope_outputs::lines::lines_of;
use scope_outputs::register::Register;
use std::alloc::Global;
use task_standings::TaskFault;
use template_parts::{BindFault, run_out};

// Whether the answer is a value.
fn is_value(answer: Answer) -> bool
    ensures { (t : tables.Table) (l : laters.Later) (c : Cell) → IsAnswerNow t l c answer → IsValued t l c result }
{
    match answer {
        Answer::Value(value) => {
            let_go(value);
            true
        }
        Answer::Empty => false,
        Answer::State(key) => {
            let_go(key);
            false
        }
        Answer::Waits(_) => false,
    }
}

// Whether the parameter or variable of a line has a value.
fn has_value(
    alloc: Global,
    register: &Register,
    later: &Later,
    frame: usize,
    at: usize,
) -> Result<bool, OutOfMemory>
    requires complete { IsComplete register.now }
    requires fit { IsFit register.now.table later.now }
    requires told { AreTold register.now.table later.now }
    requires own { IsOwnLine register.now.table frame at }
    ensures { IfOk result (IsValued register.now.table later.now (line_cell register.now.table at)) }
{
    match &later.entries[at] {
        Entry::Value(_) => Ok(true),
        Entry::Away => Ok(false),
        Entry::Missing => match entry_told(alloc, register, later, at) {
            Ok(answer) => Ok(is_value(answer)),
            Err(refused) => Err(refused),
        },
    }
}

// The first of the lines whose cell has no value.
fn first_without(
    alloc: Global,
    register: &Register,
    later: &Later,
    frame: usize,
    lines: &[usize],
) -> Result<Option<usize>, OutOfMemory>
    requires complete { IsComplete register.now }
    requires fit { IsFit register.now.table later.now }
    requires told { AreTold register.now.table later.now }
    requires own { AreOwnLines register.now.table frame lines.now }
    ensures { IfOk result (IsFirstLine register.now.table later.now lines.now
        (cells_at register.now.table lines.now)) }
{
    'each: for at in lines {
        if !has_value(alloc, register, later, frame, *at)? {
            return Ok(Some(*at));
        }
    }
    Ok(None)
}

// How the value of a line breaks its rule.
fn value_fault(
    alloc: Global,
    register: &Register,
    at: usize,
    raw: Value,
) -> Result<Option<BindFault>, OutOfMemory>
    requires complete { IsComplete register.now }
    requires listed { at < length register.now.table.lines.items }
    requires entry { IsEntrySpot (line_at register.now.table.lines.items at).spot }
    ensures { (l : laters.Later) → HasNone register.now.table l (line_cell register.now.table at)
        → raw_told register.now.table l (line_cell register.now.table at) ≡ value (Some (json raw))
        → IfOk result (IsBroken register.now.table l (line_cell register.now.table at)) }
{
    match register.table.lines[at].spot {
        Spot::Parameter(frame, number) => {
            let fault = parameter_fault(alloc, parameter_at(register, frame, number), &raw);
            let_go(raw);
            fault
        }
        Spot::Variable(_, _) => {
            let_go(raw);
            Ok(None)
        }
        Spot::Offered(_, _) => unreachable!(),
        Spot::Output(_, _) => unreachable!(),
        Spot::Count(_, _) => unreachable!(),
        Spot::Included(_, _, _) => unreachable!(),
        Spot::Name(_, _, _) => unreachable!(),
        Spot::Deployments(_) => unreachable!(),
    }
}

// How the value of a parameter or a variable that has none breaks its rule, if one is told.
fn broken_at(
    alloc: Global,
    register: &Register,
    later: &Later,
    at: usize,
) -> Result<Option<BindFault>, OutOfMemory>
    requires complete { IsComplete register.now }
    requires fit { IsFit register.now.table later.now }
    requires listed { at < length register.now.table.lines.items }
    requires entry { IsEntrySpot (line_at register.now.table.lines.items at).spot }
    requires none { HasNone register.now.table later.now (line_cell register.now.table at) }
    ensures { IfOk result (IsBroken register.now.table later.now (line_cell register.now.table at)) }
{
    match raw_told(alloc, register, later, at) {
        Ok(value) => value_fault(alloc, register, at, value),
        Err(lack) => no_fault(lack),
    }
}

// The fault of a parameter or a variable that has no value.
fn fault_at(
    alloc: Global,
    register: &Register,
    later: &Later,
    at: usize,
) -> Result<TaskFault, OutOfMemory>
    requires complete { IsComplete register.now }
    requires fit { IsFit register.now.table later.now }
    requires listed { at < length register.now.table.lines.items }
    requires entry { IsEntrySpot (line_at register.now.table.lines.items at).spot }
    requires none { HasNone register.now.table later.now (line_cell register.now.table at) }
    ensures { IfOk result (SaysCell register.now.table later.now (line_cell register.now.table at)) }
{
    let path = line_path(alloc, &register.table, at)?;
    match broken_at(alloc, register, later, at) {
        Ok(broken) => Ok(said_of(path, broken)),
        Err(_) => run_out(path),
    }
}

/// The fault of the first parameter or variable of a scope that has no value, if there is one: which rule the value
/// breaks that is told of it, or that none is told.
pub fn first_fault(
    alloc: Global,
    register: &Register,
    later: &Later,
    frame: usize,
) -> Result<Option<TaskFault>, OutOfMemory>
    requires complete { IsComplete register.now }
    requires fit { IsFit register.now.table later.now }
    requires told { AreTold register.now.table later.now }
    requires there { frame < length register.now.table.frames.items }
    ensures { IfOk result (IsEntryFault register.now.table later.now frame) }
{
    let lines = lines_of(alloc, &register.table, frame)?;
    match first_without(alloc, register, later, frame, lines.as_slice())? {
        Some(at) => Ok(Some(fault_at(alloc, register, later, at)?)),
        None => Ok(None),
    }
}
