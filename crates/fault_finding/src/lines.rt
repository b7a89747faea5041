// Why there is no plan, by a line.
ghost use Rattle.std.specs.Prelude.{◌≡◌, ◌<◌, length, List, true};
ghost use Rattle.arm_value.specs.View.{json};
ghost use Rattle.arm_ids.specs.Held.{HeldResource};
ghost use Rattle.template_parts.specs.declared.mode.Mode.{Mode};
ghost use Rattle.plan_refusals.specs.Refusals.{is_needed};
ghost use Rattle.plan_sight.specs.Seen.{Lacks};
ghost use Rattle.plan_start.specs.Values.{told_raw};
ghost use Rattle.plan_filling.specs.Rows.{row_at};
ghost use Rattle.plan_filling.specs.Sound.{Sound};
ghost use Rattle.plan_filling.specs.Steps.{Filled};
ghost use Rattle.plan_table.specs.declared.line.Spot.TheVariants as spot;
ghost use Rattle.plan_table.specs.Lines.{cell_of, line_at};
ghost use Rattle.plan_table.specs.Whole.{whole_of, scopes_of, rows_in, IsLaid};
ghost use Rattle.plan_telling.specs.Symbols.{IsComplete};
ghost use Rattle.plan_paths.specs.CellPaths.{cell_path};
ghost use Rattle.plan_faults.specs.Faults.{IsFault};
ghost use Rattle.plan_settling.specs.Refused.{is_refused};
ghost use Rattle.lack_faults.specs.Lacks.{IsBrokenAt, IsMissingAt};

use crate::breaking::{condition_fault, count_fault, name_fault, number_of, parameter_fault};
use arm_env::stop::let_go;
use arm_value::{Path, Value};
use lack_faults::lack_fault;
use plan_faults::PlanFault;
use plan_paths::line_path;
use plan_sight::lack::Lack;
use plan_start::raw_value;
use plan_table::line::Spot;
use plan_table::table::Table;
use plan_telling::register::Register;
use std::alloc::Global;
use template_parts::{BindFault, Which};

// A value that breaks the rule of its parameter.
fn parameter_broken(
    alloc: Global,
    table: &Table,
    frame: usize,
    number: usize,
    path: Path,
    value: &Value,
) -> PlanFault
    requires laid { IsLaid table.now }
    requires sound { Sound (whole_of table.now) (rows_in table.now) }
    requires broken { IsBrokenAt table.now (spot.Parameter frame number) path (json value.now) }
    ensures { (mode : Mode) (held : List HeldResource) → IsFault (whole_of table.now) mode held result }
{
    let parameters = table.frames[frame].template.parameters.as_slice();
    match parameter_fault(alloc, &parameters[number], value) {
        Ok(Some(fault)) => PlanFault::Bind(path, fault),
        Ok(None) => unreachable!(),
        Err(_) => PlanFault::OutOfMemory,
    }
}

// A condition that is neither true nor false.
fn condition_broken(
    alloc: Global,
    table: &Table,
    frame: usize,
    resource: usize,
    copy: usize,
    path: Path,
    value: &Value,
) -> PlanFault
    requires sound { Sound (whole_of table.now) (rows_in table.now) }
    requires broken { IsBrokenAt table.now (spot.Included frame resource copy) path (json value.now) }
    ensures { (mode : Mode) (held : List HeldResource) → IsFault (whole_of table.now) mode held result }
{
    match condition_fault(alloc, value) {
        Ok(Some(fault)) => PlanFault::Bind(path, fault),
        Ok(None) => unreachable!(),
        Err(_) => PlanFault::OutOfMemory,
    }
}

// A count that is no number, negative, or above 800.
fn count_broken(
    alloc: Global,
    table: &Table,
    frame: usize,
    resource: usize,
    path: Path,
    value: &Value,
) -> PlanFault
    requires sound { Sound (whole_of table.now) (rows_in table.now) }
    requires broken { IsBrokenAt table.now (spot.Count frame resource) path (json value.now) }
    ensures { (mode : Mode) (held : List HeldResource) → IsFault (whole_of table.now) mode held result }
{
    match count_fault(alloc, value) {
        Ok(Some(fault)) => PlanFault::Bind(path, fault),
        Ok(None) => PlanFault::Limit(Which::Count, number_of(value)),
        Err(_) => PlanFault::OutOfMemory,
    }
}

// A name that is no text, or one of which no key can be formed.
fn name_broken(
    alloc: Global,
    table: &Table,
    frame: usize,
    resource: usize,
    copy: usize,
    path: Path,
    value: &Value,
) -> PlanFault
    requires laid { IsLaid table.now }
    requires sound { Sound (whole_of table.now) (rows_in table.now) }
    requires broken { IsBrokenAt table.now (spot.Name frame resource copy) path (json value.now) }
    ensures { (mode : Mode) (held : List HeldResource) → IsFault (whole_of table.now) mode held result }
{
    match name_fault(alloc, value) {
        Ok(Some(fault)) => PlanFault::Bind(path, fault),
        Ok(None) => PlanFault::NoValue(path),
        Err(_) => PlanFault::OutOfMemory,
    }
}

// The value of the cell of a spot breaks its rule.
fn value_fault(alloc: Global, table: &Table, found: Spot, path: Path, value: &Value) -> PlanFault
    requires laid { IsLaid table.now }
    requires sound { Sound (whole_of table.now) (rows_in table.now) }
    requires broken { IsBrokenAt table.now found path (json value.now) }
    requires needed { is_needed (cell_of (scopes_of table.now) found) ≡ true }
    ensures { (mode : Mode) (held : List HeldResource) → IsFault (whole_of table.now) mode held result }
{
    match found {
        Spot::Parameter(frame, number) => {
            parameter_broken(alloc, table, frame, number, path, value)
        }
        Spot::Included(frame, resource, copy) => {
            condition_broken(alloc, table, frame, resource, copy, path, value)
        }
        Spot::Count(frame, resource) => count_broken(alloc, table, frame, resource, path, value),
        Spot::Name(frame, resource, copy) => {
            name_broken(alloc, table, frame, resource, copy, path, value)
        }
        Spot::Variable(_, _) => unreachable!(),
        Spot::Offered(_, _) => unreachable!(),
        Spot::Output(_, _) => unreachable!(),
        Spot::Deployments(_) => unreachable!(),
    }
}

// Nothing is given for a parameter, and it has no default.
fn parameter_missing(
    alloc: Global,
    table: &Table,
    frame: usize,
    number: usize,
    path: Path,
) -> PlanFault
    requires laid { IsLaid table.now }
    requires sound { Sound (whole_of table.now) (rows_in table.now) }
    requires missing { IsMissingAt table.now (spot.Parameter frame number) path }
    ensures { (mode : Mode) (held : List HeldResource) → IsFault (whole_of table.now) mode held result }
{
    let parameters = table.frames[frame].template.parameters.as_slice();
    match parameters[number].name.copy(alloc) {
        Ok(name) => PlanFault::Bind(path, BindFault::MissingParameter(name)),
        Err(_) => PlanFault::OutOfMemory,
    }
}

// There is nothing to read for the cell of a spot.
fn missing_fault(alloc: Global, table: &Table, found: Spot, path: Path) -> PlanFault
    requires laid { IsLaid table.now }
    requires sound { Sound (whole_of table.now) (rows_in table.now) }
    requires missing { IsMissingAt table.now found path }
    requires needed { is_needed (cell_of (scopes_of table.now) found) ≡ true }
    ensures { (mode : Mode) (held : List HeldResource) → IsFault (whole_of table.now) mode held result }
{
    match found {
        Spot::Parameter(frame, number) => parameter_missing(alloc, table, frame, number, path),
        Spot::Variable(_, _) => unreachable!(),
        Spot::Included(_, _, _) => unreachable!(),
        Spot::Count(_, _) => unreachable!(),
        Spot::Name(_, _, _) => unreachable!(),
        Spot::Offered(_, _) => unreachable!(),
        Spot::Output(_, _) => unreachable!(),
        Spot::Deployments(_) => unreachable!(),
    }
}

// There is no value for the cell of a line, since its reading lacks this.
fn lacking_fault(alloc: Global, table: &Table, at: usize, path: Path, lack: Lack) -> PlanFault
    requires filled { Filled (whole_of table.now) (rows_in table.now) }
    requires laid { IsLaid table.now }
    requires listed { at < length table.now.lines.items }
    requires refused { is_refused (row_at (rows_in table.now) at) ≡ true }
    requires path { path ≡ cell_path (whole_of table.now).template
        (cell_of (scopes_of table.now) (line_at table.now.lines.items at).spot) }
    requires lacks { Lacks table.now lack (told_raw table.now (line_at table.now.lines.items at).spot) }
    ensures { (mode : Mode) (held : List HeldResource) → IsFault (whole_of table.now) mode held result }
{
    match lack {
        Lack::NotThere => missing_fault(alloc, table, table.lines[at].spot, path),
        Lack::NoValue => lack_fault(alloc, table, path, Lack::NoValue),
        Lack::Line(other) => lack_fault(alloc, table, path, Lack::Line(other)),
        Lack::State(key) => lack_fault(alloc, table, path, Lack::State(key)),
        Lack::OutOfMemory => PlanFault::OutOfMemory,
    }
}

// Why there is no plan, by a line whose text is at this path.
fn fault_at(alloc: Global, register: &Register, at: usize, path: Path) -> PlanFault
    requires complete { IsComplete register.now }
    requires filled { Filled (whole_of register.now.table) (rows_in register.now.table) }
    requires listed { at < length register.now.table.lines.items }
    requires refused { is_refused (row_at (rows_in register.now.table) at) ≡ true }
    requires path { path ≡ cell_path (whole_of register.now.table).template
        (cell_of (scopes_of register.now.table) (line_at register.now.table.lines.items at).spot) }
    ensures { (mode : Mode) (held : List HeldResource) → IsFault (whole_of register.now.table) mode held result }
{
    let table = &register.table;
    match raw_value(alloc, register, at) {
        Ok(value) => {
            let fault = value_fault(alloc, table, table.lines[at].spot, path, &value);
            let_go(value);
            fault
        }
        Err(lack) => lacking_fault(alloc, table, at, path, lack),
    }
}

/// Why there is no plan, by a line for which there is none.
pub fn line_fault(alloc: Global, register: &Register, at: usize) -> PlanFault
    requires complete { IsComplete register.now }
    requires filled { Filled (whole_of register.now.table) (rows_in register.now.table) }
    requires listed { at < length register.now.table.lines.items }
    requires refused { is_refused (row_at (rows_in register.now.table) at) ≡ true }
    ensures { (mode : Mode) (held : List HeldResource) → IsFault (whole_of register.now.table) mode held result }
{
    match line_path(alloc, &register.table, at) {
        Ok(path) => fault_at(alloc, register, at, path),
        Err(_) => PlanFault::OutOfMemory,
    }
}
