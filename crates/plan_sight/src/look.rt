// What the cells of lines have, and parameters and variables by their names.
ghost use Rattle.std.specs.Prelude.{◌≡◌, ◌<◌, length};
ghost use Rattle.arm_value.specs.Look.{fold};
ghost use Rattle.arm_value.specs.View.{json};
ghost use Rattle.arm_ids.specs.declared.id.Place.{Place};
ghost use Rattle.plan_table.specs.Look.{a_value};
ghost use Rattle.plan_table.specs.Look as look;
ghost use Rattle.reading.specs.Reading.{read};
ghost use Rattle.plan_cells.specs.Sites.{Site, value_of, looked_up};
ghost use Rattle.plan_table.specs.Lines.{cell_of, line_at};
ghost use Rattle.plan_table.specs.Whole.{whole_of, scopes_of};
ghost use Rattle.plan_table.specs.Found.{scope_at};
ghost use Rattle.plan_sight.specs.Ready.{IsReady, told_in};
ghost use Rattle.plan_sight.specs.Seen.{Shows, Yields};

use crate::lack::Lack;
use arm_value::{Text, Value};
use plan_table::line::State;
use plan_table::table::Table;
use std::alloc::Global;

/// What the cell of a line has.
pub fn look_at<'t>(table: &'t Table, at: usize) -> Result<&'t Value, Lack>
    requires ready { IsReady table.now }
    requires listed { at < length table.now.lines.items }
    ensures { Shows (λ v. a_value (json v.now)) table.now result
        (told_in table.now (value_of (cell_of (scopes_of table.now) (line_at table.now.lines.items at).spot))) }
{
    match &table.lines[at].state {
        State::Value(value) => Ok(value),
        State::Empty => Err(Lack::NotThere),
        State::New => Err(Lack::Line(at)),
        State::Open => Err(Lack::Line(at)),
        State::Late(_) => Err(Lack::Line(at)),
    }
}

/// The value of the cell of a line, without which what reads it has none.
pub fn read_at<'t>(table: &'t Table, at: usize) -> Result<&'t Value, Lack>
    requires ready { IsReady table.now }
    requires listed { at < length table.now.lines.items }
    ensures { Yields (λ v. json v.now) table.now result
        (told_in table.now (read (cell_of (scopes_of table.now) (line_at table.now.lines.items at).spot))) }
{
    match &table.lines[at].state {
        State::Value(value) => Ok(value),
        State::Empty => Err(Lack::NoValue),
        State::New => Err(Lack::Line(at)),
        State::Open => Err(Lack::Line(at)),
        State::Late(_) => Err(Lack::Line(at)),
    }
}

/// What an expression in a scope sees of a parameter.
pub fn look_parameter<'t>(
    alloc: Global,
    table: &'t Table,
    frame: usize,
    name: &Text,
) -> Result<&'t Value, Lack>
    requires ready { IsReady table.now }
    requires there { frame < length table.now.frames.items }
    ensures { (place : Place) (e : Site) → e.at ≡ (scope_at table.now frame).position
        → Shows (λ v. a_value (json v.now)) table.now result
        (told_in table.now (looked_up (whole_of table.now).template place e (look.parameter (fold name.now)))) }
{
    let owner = table.frames[frame].owner;
    match table.parameter_line(alloc, owner, name) {
        Ok(Some(at)) => look_at(table, at),
        Ok(None) => Err(Lack::NotThere),
        Err(_) => Err(Lack::OutOfMemory),
    }
}

/// What an expression in a scope sees of a variable.
pub fn look_variable<'t>(
    alloc: Global,
    table: &'t Table,
    frame: usize,
    name: &Text,
) -> Result<&'t Value, Lack>
    requires ready { IsReady table.now }
    requires there { frame < length table.now.frames.items }
    ensures { (place : Place) (e : Site) → e.at ≡ (scope_at table.now frame).position
        → Shows (λ v. a_value (json v.now)) table.now result
        (told_in table.now (looked_up (whole_of table.now).template place e (look.variable (fold name.now)))) }
{
    let owner = table.frames[frame].owner;
    match table.variable_line(alloc, owner, name) {
        Ok(Some(at)) => look_at(table, at),
        Ok(None) => Err(Lack::NotThere),
        Err(_) => Err(Lack::OutOfMemory),
    }
}
