// What is told of the nested deployment at a key, and of its outputs.
ghost use Rattle.std.specs.Prelude.{◌≡◌, ◌<◌, true, length, IfOk};
ghost use Rattle.arm_value.specs.Look.{fold};
ghost use Rattle.arm_value.specs.View.{json};
ghost use Rattle.arm_env.specs.Look.{a_value, a_truth};
ghost use Rattle.arm_env.specs.Look as look;
ghost use Rattle.reading.specs.Reading.{ask, pure};
ghost use Rattle.deploy_cells.specs.Cells as cells;
ghost use Rattle.plan_sight.specs.Sites.{Site, looked_up, value_of, output_at, truth_of_found};
ghost use Rattle.plan_table.specs.Lines.{cell_of, line_at};
ghost use Rattle.plan_table.specs.Whole.{whole_of, scopes_of};
ghost use Rattle.plan_table.specs.declared.table.Table.{Table};
ghost use Rattle.plan_table.specs.Found.{scope_at, IsLineOf, IsTrueLine, state_at};
ghost use Rattle.plan_sight.specs.Ready.{IsReady, told_in};
ghost use Rattle.plan_sight.specs.Seen.{Shows, Yields};
ghost use Rattle.plan_nested.specs.Sighted.{IsInside, IsThere, found_of, instance_at};
ghost use Rattle.arm_value.specs.Kinds.{is_true};

use crate::seeking::{Sighting, seek};
use arm_ids::{Key, Place};
use arm_value::{Text, Value};
use plan_sight::lack::Lack;
use plan_sight::look::look_at;
use plan_table::line::State;
use plan_table::table::Table;
use std::alloc::Global;

/// Whether the condition of an output, at a line, is true.
pub(crate) fn is_offered(table: &Table, at: usize) -> Result<bool, Lack>
    requires ready { IsReady table.now }
    requires listed { at < length table.now.lines.items }
    ensures told { Yields (λ b. b) table.now result (told_in table.now
        (ask (cell_of (scopes_of table.now) (line_at table.now.lines.items at).spot)
        (λ v. pure (is_true v)))) }
    ensures line { IfOk result (λ b. b ≡ true → IsTrueLine (state_at table.now at)) }
{
    match &table.lines[at].state {
        State::Value(value) => Ok(is_true(value)),
        State::Empty => Ok(false),
        State::New => Err(Lack::Line(at)),
        State::Open => Err(Lack::Line(at)),
        State::Late(_) => Err(Lack::Line(at)),
    }
}

// Whether the value is true.
fn is_true(value: &Value) -> bool
    ensures { result ≡ is_true (Some (json value.now)) }
{
    match value {
        Value::Bool(truth) => *truth,
        _ => false,
    }
}

// The value of an output whose condition is true.
fn output_there<'t>(
    alloc: Global,
    table: &'t Table,
    inside: usize,
    condition: usize,
    name: &Text,
) -> Result<&'t Value, Lack>
    requires ready { IsReady table.now }
    requires line { IsLineOf table.now inside
        (cells.offered (scope_at table.now inside).position (fold name.now)) condition }
    requires inside { inside < length table.now.frames.items }
    requires is_true { IsTrueLine (state_at table.now condition) }
    ensures { Shows (λ v. a_value (json v.now)) table.now result (told_in table.now
        (value_of (cells.output (scope_at table.now inside).position (fold name.now)))) }
{
    match table.output_line(alloc, inside, name) {
        Ok(Some(at)) => look_at(table, at),
        Ok(None) => unreachable!(),
        Err(_) => Err(Lack::OutOfMemory),
    }
}

// The value of an output, by the line of its condition.
fn output_by<'t>(
    alloc: Global,
    table: &'t Table,
    inside: usize,
    condition: usize,
    name: &Text,
) -> Result<&'t Value, Lack>
    requires ready { IsReady table.now }
    requires inside { IsInside table.now inside }
    requires line { IsLineOf table.now inside
        (cells.offered (scope_at table.now inside).position (fold name.now)) condition }
    ensures { Shows (λ v. a_value (json v.now)) table.now result (told_in table.now
        (output_at (whole_of table.now).template (fold name.now)
        (instance_at (scope_at table.now inside).position))) }
{
    match is_offered(table, condition) {
        Ok(offered) => if offered {
            output_there(alloc, table, inside, condition, name)
        } else {
            Err(Lack::NotThere)
        },
        Err(lack) => Err(lack),
    }
}

// The value of an output of a scope inside.
fn output_in<'t>(
    alloc: Global,
    table: &'t Table,
    inside: usize,
    name: &Text,
) -> Result<&'t Value, Lack>
    requires ready { IsReady table.now }
    requires inside { IsInside table.now inside }
    ensures { Shows (λ v. a_value (json v.now)) table.now result (told_in table.now
        (output_at (whole_of table.now).template (fold name.now)
        (instance_at (scope_at table.now inside).position))) }
{
    match table.offered_line(alloc, inside, name) {
        Ok(Some(condition)) => output_by(alloc, table, inside, condition, name),
        Ok(None) => Err(Lack::NotThere),
        Err(_) => Err(Lack::OutOfMemory),
    }
}

// The value of an output of the nested deployment that was found.
fn output_found<'t>(
    alloc: Global,
    table: &'t Table,
    sighting: Sighting,
    name: &Text,
) -> Result<&'t Value, Lack>
    requires ready { IsReady table.now }
    requires there { IsThere table.now sighting }
    ensures { Shows (λ v. a_value (json v.now)) table.now result (told_in table.now
        (output_at (whole_of table.now).template (fold name.now) (found_of table.now sighting))) }
{
    match sighting {
        Sighting::Scope(inside) => output_in(alloc, table, inside, name),
        Sighting::LeftAway => Err(Lack::NotThere),
        Sighting::Nowhere => Err(Lack::NotThere),
    }
}

/// The value of an output of the nested deployment at a key.
pub fn look_output<'t>(
    alloc: Global,
    table: &'t Table,
    frame: usize,
    place: &Place,
    key: &Key,
    name: &Text,
) -> Result<&'t Value, Lack>
    requires ready { IsReady table.now }
    requires there { frame < length table.now.frames.items }
    ensures { (e : Site) → e.at ≡ (scope_at table.now frame).position
        → Shows (λ v. a_value (json v.now)) table.now result (told_in table.now
        (looked_up (whole_of table.now).template place.now e (look.output key.now (fold name.now)))) }
{
    match seek(alloc, table, frame, key, place) {
        Ok(sighting) => output_found(alloc, table, sighting, name),
        Err(lack) => Err(lack),
    }
}

// Whether what was found can be seen.
fn is_seen(sighting: Sighting) -> Result<bool, Lack>
    ensures { (t : Table) → IsThere t sighting → Shows (λ b. a_truth b) t result
        (told_in t (pure (truth_of_found (found_of t sighting)))) }
{
    match sighting {
        Sighting::Scope(_) => Ok(true),
        Sighting::LeftAway => Err(Lack::NotThere),
        Sighting::Nowhere => Ok(false),
    }
}

/// Whether a nested deployment can be seen at a key. One that its condition leaves away is not there.
pub fn look_deployment(
    alloc: Global,
    table: &Table,
    frame: usize,
    place: &Place,
    key: &Key,
) -> Result<bool, Lack>
    requires ready { IsReady table.now }
    requires there { frame < length table.now.frames.items }
    ensures { (e : Site) → e.at ≡ (scope_at table.now frame).position
        → Shows (λ b. a_truth b) table.now result
        (told_in table.now (looked_up (whole_of table.now).template place.now e (look.deployment key.now))) }
{
    match seek(alloc, table, frame, key, place) {
        Ok(sighting) => is_seen(sighting),
        Err(lack) => Err(lack),
    }
}
