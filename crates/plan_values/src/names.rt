// The name of an instance.
ghost use Rattle.std.specs.Prelude.{◌≡◌, ◌<◌, ◌++◌, ◌∷◌, chars, length, nat_lt, slice_get, string_bytes, Some, IfOk};
ghost use Rattle.arm_value.specs.Json.{Json};
ghost use Rattle.arm_value.specs.View.{json};
ghost use Rattle.reading.specs.Reading.{pure, read, continued};
ghost use Rattle.deploy_cells.specs.Cells.{step, name, copies};
ghost use Rattle.deploy_cells.specs.Guarded.{Reads};
ghost use Rattle.plan_cells.specs.Resources as cells;
ghost use Rattle.plan_cells.specs.Meaning.{Deployment, name_under};
ghost use Rattle.plan_table.specs.declared.table.Table.{Table};
ghost use Rattle.plan_table.specs.declared.line.Spot.TheVariants.{Name};
ghost use Rattle.plan_table.specs.Lines.{IsNumber};
ghost use Rattle.plan_table.specs.Opened.{step_of};
ghost use Rattle.plan_table.specs.Found.{scope_at};
ghost use Rattle.plan_table.specs.Whole.{whole_of};
ghost use Rattle.plan_sight.specs.Ready.{IsReady, told_in};
ghost use Rattle.plan_sight.specs.Seen.{Shows, Yields};
ghost use Rattle.plan_deployments.specs.Named.{IsCopy};
ghost use Rattle.plan_telling.specs.Symbols.{IsComplete};
ghost use Rattle.plan_values.specs.Values.{IsSpot, told_raw, own_name, name_above};

use crate::declared::listed_at;
use crate::scopes::told_in_instance;
use arm_env::stop::let_go;
use arm_value::{OutOfMemory, Text, Value};
use plan_sight::lack::Lack;
use plan_sight::look::read_at;
use plan_table::frame::Instance;
use plan_table::table::Table;
use plan_telling::register::Register;
use plan_telling::site::Texts;
use plan_telling::source::Source;
use std::alloc::Global;

// Adds a slash and the text.
fn push_segment(full: &mut String, segment: &str) -> Result<(), OutOfMemory>
    ensures { IfOk result (λ _. chars (string_bytes full.new)
        ≡ chars (string_bytes full.old) ++ 47 ∷ chars segment.now) }
{
    full.push('/')?;
    full.push_str(segment)?;
    Ok(())
}

// The text after another and a slash.
fn joined(alloc: Global, up: &Text, own: &Text) -> Result<Text, OutOfMemory>
    ensures { IfOk result (λ t. t ≡ up.now ++ 47 ∷ own.now) }
{
    let mut full = up.copy(alloc)?.into_string();
    push_segment(&mut full, own.as_str())?;
    Ok(Text::from_string(full))
}

// The name of a child, by that of its parent and its own.
fn name_under(alloc: Global, up: &Value, own: Value) -> Result<Value, OutOfMemory>
    ensures { IfOk result (λ v. (d : Deployment) → json v ≡ name_under d (json up.now) (json own)) }
{
    match up {
        Value::Text(up) => match &own {
            Value::Text(segment) => {
                let full = joined(alloc, up, segment);
                let_go(own);
                Ok(Value::Text(full?))
            }
            _ => Ok(own),
        },
        _ => Ok(own),
    }
}

// The own name of an instance, before that of its parent.
fn own_name(
    alloc: Global,
    register: &Register,
    frame: usize,
    instance: Instance,
) -> Result<Value, Lack>
    requires complete { IsComplete register.now }
    requires spot { IsSpot register.now.table (Name frame instance.resource instance.copy) }
    ensures { (x : cells.Listed) → slice_get (scope_at register.now.table frame).resources instance.resource ≡ Some x
        → Yields json register.now.table result
        (told_in register.now.table (own_name register.now.table frame (step_of instance) x)) }
{
    let tree = &listed_at(register, frame, instance.resource)
        .declaration
        .name;
    told_in_instance(
        alloc,
        register,
        frame,
        instance,
        Texts::IdsAlone,
        &Source::Tree(tree),
    )
}

// The name of the first instance of a resource, which has one.
fn first_name<'t>(
    alloc: Global,
    table: &'t Table,
    frame: usize,
    number: usize,
) -> Result<&'t Value, Lack>
    requires ready { IsReady table.now }
    requires there { frame < length table.now.frames.items }
    requires number { IsNumber (scope_at table.now frame) number }
    requires copy { IsCopy table.now frame number 0 }
    ensures { Yields (λ v. json v.now) table.now result
        (told_in table.now (read (name (scope_at table.now frame).position (step number 0)))) }
{
    match table.name_line(alloc, frame, number, 0) {
        Ok(Some(at)) => read_at(table, at),
        Ok(None) => unreachable!(),
        Err(_) => Err(Lack::OutOfMemory),
    }
}

// Whether a count lists an instance.
fn has_instance(count: &Value) -> bool
    ensures { result ≡ nat_lt 0 (copies (Some (json count.now))) }
{
    match count {
        Value::Int(number) => 0 < *number,
        _ => false,
    }
}

// The name of the first instance of the parent of a child. Where the parent has no instance there is none.
fn name_above<'t>(
    alloc: Global,
    table: &'t Table,
    frame: usize,
    parent: usize,
) -> Result<&'t Value, Lack>
    requires ready { IsReady table.now }
    requires there { frame < length table.now.frames.items }
    ensures { Yields (λ v. json v.now) table.now result (told_in table.now (name_above table.now frame parent)) }
{
    match table.count_line(alloc, frame, parent) {
        Ok(Some(at)) => match read_at(table, at) {
            Ok(count) => if has_instance(count) {
                first_name(alloc, table, frame, parent)
            } else {
                Err(Lack::NoValue)
            },
            Err(lack) => Err(lack),
        },
        Ok(None) => Err(Lack::NoValue),
        Err(_) => Err(Lack::OutOfMemory),
    }
}

// The name of a child, by that of its parent and its own.
fn child_name(alloc: Global, up: &Value, own: Result<Value, Lack>) -> Result<Value, Lack>
    ensures { (t : Table) (r : Reads Json) → Yields json t own (told_in t r)
        → Yields json t result (told_in t (continued r (λ j. pure (name_under (whole_of t) (json up.now) j)))) }
{
    match own {
        Ok(own) => match name_under(alloc, up, own) {
            Ok(full) => Ok(full),
            Err(_) => Err(Lack::OutOfMemory),
        },
        Err(lack) => Err(lack),
    }
}

/// The name of an instance: of a child that of its parent's first instance, a slash, and its own.
pub fn name_told(
    alloc: Global,
    register: &Register,
    frame: usize,
    instance: Instance,
) -> Result<Value, Lack>
    requires complete { IsComplete register.now }
    requires spot { IsSpot register.now.table (Name frame instance.resource instance.copy) }
    ensures { Shows json register.now.table result
        (told_raw register.now.table (Name frame instance.resource instance.copy)) }
{
    match &listed_at(register, frame, instance.resource).above {
        Some(parent) => match name_above(alloc, &register.table, frame, parent.number) {
            Ok(up) => child_name(alloc, up, own_name(alloc, register, frame, instance)),
            Err(lack) => Err(lack),
        },
        None => own_name(alloc, register, frame, instance),
    }
}
