// The item of an instance of a nested deployment: its name, and whether it is included.
ghost use Rattle.std.specs.Prelude.{◌≡◌, ◌<◌, length, IfOk};
ghost use Rattle.arm_value.specs.View.{json};
ghost use Rattle.reading.specs.Reading.{read};
ghost use Rattle.deploy_cells.specs.Cells.{step, name, included};
ghost use Rattle.deploy_cells.specs.Listing.{named_by, named_json, one_named};
ghost use Rattle.plan_table.specs.Lines.{IsNumber};
ghost use Rattle.plan_table.specs.Found.{scope_at};
ghost use Rattle.plan_sight.specs.Ready.{IsReady, told_in};
ghost use Rattle.plan_sight.specs.Seen.{Yields};
ghost use Rattle.plan_names.specs.Named.{IsCopy};
ghost use Rattle.plan_deployments.specs.Items.{Makes, IsItem};

use arm_value::{Items, OutOfMemory, Text, Value};
use function_numbers::kinds::{text_of, truth_of};
use plan_sight::lack::Lack;
use plan_sight::look::read_at;
use plan_table::table::Table;
use std::alloc::Global;

// The item of a name and a truth value.
fn item_of(alloc: Global, name: &Text, included: bool) -> Result<Value, OutOfMemory>
    ensures { IfOk result (λ v. json v ≡ named_json (record { name = name.now; included = included })) }
{
    let name = name.copy(alloc)?;
    let mut parts = Items::new();
    parts.push(alloc, Value::Text(name))?;
    parts.push(alloc, Value::Bool(included))?;
    Ok(Value::Array(parts))
}

// The item of two values. A name that is no text, and a condition that is neither true nor false, give none.
fn item_by(alloc: Global, name: &Value, included: &Value) -> Result<Value, Lack>
    ensures { Makes (named_by (json name.now) (json included.now)) result }
{
    match text_of(name) {
        Some(name) => match truth_of(included) {
            Some(included) => match item_of(alloc, name, included) {
                Ok(item) => Ok(item),
                Err(_) => Err(Lack::OutOfMemory),
            },
            None => Err(Lack::NoValue),
        },
        None => Err(Lack::NoValue),
    }
}

// The name of an instance.
fn name_of<'t>(
    alloc: Global,
    table: &'t Table,
    frame: usize,
    number: usize,
    copy: usize,
) -> Result<&'t Value, Lack>
    requires ready { IsReady table.now }
    requires there { frame < length table.now.frames.items }
    requires number { IsNumber (scope_at table.now frame) number }
    requires copy { IsCopy table.now frame number copy }
    ensures { Yields (λ v. json v.now) table.now result
        (told_in table.now (read (name (scope_at table.now frame).position (step number copy)))) }
{
    match table.name_line(alloc, frame, number, copy) {
        Ok(Some(at)) => read_at(table, at),
        Ok(None) => unreachable!(),
        Err(_) => Err(Lack::OutOfMemory),
    }
}

// Whether an instance is included.
fn inclusion_of<'t>(
    alloc: Global,
    table: &'t Table,
    frame: usize,
    number: usize,
    copy: usize,
) -> Result<&'t Value, Lack>
    requires ready { IsReady table.now }
    requires there { frame < length table.now.frames.items }
    requires number { IsNumber (scope_at table.now frame) number }
    requires copy { IsCopy table.now frame number copy }
    ensures { Yields (λ v. json v.now) table.now result
        (told_in table.now (read (included (scope_at table.now frame).position (step number copy)))) }
{
    match table.included_line(alloc, frame, number, copy) {
        Ok(Some(at)) => read_at(table, at),
        Ok(None) => unreachable!(),
        Err(_) => Err(Lack::OutOfMemory),
    }
}

/// The item of an instance.
pub fn item_told(
    alloc: Global,
    table: &Table,
    frame: usize,
    number: usize,
    copy: usize,
) -> Result<Value, Lack>
    requires ready { IsReady table.now }
    requires there { frame < length table.now.frames.items }
    requires number { IsNumber (scope_at table.now frame) number }
    requires copy { IsCopy table.now frame number copy }
    ensures { IsItem table.now result
        (told_in table.now (one_named (scope_at table.now frame).position (step number copy))) }
{
    match name_of(alloc, table, frame, number, copy) {
        Ok(name) => match inclusion_of(alloc, table, frame, number, copy) {
            Ok(included) => item_by(alloc, name, included),
            Err(lack) => Err(lack),
        },
        Err(lack) => Err(lack),
    }
}
