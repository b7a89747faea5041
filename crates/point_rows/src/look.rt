// What the cells of parameters and variables have.
ghost use Rattle.std.specs.Prelude.{◌≡◌, ◌<◌, length};
ghost use Rattle.arm_value.specs.Look.{fold};
ghost use Rattle.arm_value.specs.View.{json};
ghost use Rattle.arm_ids.specs.declared.id.Place.{Place};
ghost use Rattle.arm_env.specs.Look.{a_value};
ghost use Rattle.arm_env.specs.Look as look;
ghost use Rattle.plan_cells.specs.Sites.{Site, value_of, looked_up};
ghost use Rattle.plan_table.specs.Lines.{cell_of, line_at};
ghost use Rattle.plan_table.specs.Whole.{whole_of, scopes_of};
ghost use Rattle.plan_table.specs.Found.{scope_at};
ghost use Rattle.plan_sight.specs.Ready.{IsReady};
ghost use Rattle.plan_sight.specs.Seen.{Shows};
ghost use Rattle.point_rows.specs.Rows.{told_now, IsFit, IsEntrySpot};
ghost use Rattle.point_rows.specs.Looked.{IsEntryValue};

use crate::later::{Entry, Later};
use arm_value::{Text, Value};
use plan_sight::lack::Lack;
use plan_table::line::State;
use plan_table::table::Table;
use std::alloc::Global;

// What an entry has for the line.
fn entry_value(entry: &Entry, at: usize) -> Result<&Value, Lack>
    ensures { IsEntryValue (λ v. v.now) entry.now at result }
{
    match entry {
        Entry::Value(value) => Ok(value),
        Entry::Missing => Err(Lack::Line(at)),
        Entry::Away => Err(Lack::NotThere),
    }
}

/// What the parameter or variable of a line has.
pub fn look_at<'t>(table: &'t Table, later: &'t Later, at: usize) -> Result<&'t Value, Lack>
    requires ready { IsReady table.now }
    requires fit { IsFit table.now later.now }
    requires listed { at < length table.now.lines.items }
    requires entry { IsEntrySpot (line_at table.now.lines.items at).spot }
    ensures { Shows (λ v. a_value (json v.now)) table.now result
        (told_now table.now later.now (value_of (cell_of (scopes_of table.now) (line_at table.now.lines.items
        at).spot))) }
{
    match &table.lines[at].state {
        State::Value(value) => Ok(value),
        State::Empty => Err(Lack::NotThere),
        State::New => entry_value(&later.entries[at], at),
        State::Open => entry_value(&later.entries[at], at),
        State::Late(_) => entry_value(&later.entries[at], at),
    }
}

/// What an expression in a scope sees of a parameter.
pub fn look_parameter<'t>(
    alloc: Global,
    table: &'t Table,
    later: &'t Later,
    frame: usize,
    name: &Text,
) -> Result<&'t Value, Lack>
    requires ready { IsReady table.now }
    requires fit { IsFit table.now later.now }
    requires there { frame < length table.now.frames.items }
    ensures { (place : Place) (e : Site) → e.at ≡ (scope_at table.now frame).position
        → Shows (λ v. a_value (json v.now)) table.now result
        (told_now table.now later.now
        (looked_up (whole_of table.now).template place e (look.parameter (fold name.now)))) }
{
    let owner = table.frames[frame].owner;
    match table.parameter_line(alloc, owner, name) {
        Ok(Some(at)) => look_at(table, later, at),
        Ok(None) => Err(Lack::NotThere),
        Err(_) => Err(Lack::OutOfMemory),
    }
}

/// What an expression in a scope sees of a variable.
pub fn look_variable<'t>(
    alloc: Global,
    table: &'t Table,
    later: &'t Later,
    frame: usize,
    name: &Text,
) -> Result<&'t Value, Lack>
    requires ready { IsReady table.now }
    requires fit { IsFit table.now later.now }
    requires there { frame < length table.now.frames.items }
    ensures { (place : Place) (e : Site) → e.at ≡ (scope_at table.now frame).position
        → Shows (λ v. a_value (json v.now)) table.now result
        (told_now table.now later.now
        (looked_up (whole_of table.now).template place e (look.variable (fold name.now)))) }
{
    let owner = table.frames[frame].owner;
    match table.variable_line(alloc, owner, name) {
        Ok(Some(at)) => look_at(table, later, at),
        Ok(None) => Err(Lack::NotThere),
        Err(_) => Err(Lack::OutOfMemory),
    }
}
