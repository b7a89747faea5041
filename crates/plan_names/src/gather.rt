// The keys of the resources of a scope that a text names.
ghost use Rattle.std.specs.Prelude.{◌≡◌, ◌<◌, ◌++◌, ◌∷◌, [], length, slice_get, Some, IfOk, if◌then◌else◌};
ghost use Rattle.arm_value.specs.View.{json};
ghost use Rattle.deploy_cells.specs.Cells.{copies};
ghost use Rattle.deploy_cells.specs.Puts.{key_at};
ghost use Rattle.plan_sight.specs.Resources as cells;
ghost use Rattle.plan_sight.specs.Sites.{spelled_by, instances_spelled, resource_spelled, all_spelled};
ghost use Rattle.plan_table.specs.Lines.{IsNumber};
ghost use Rattle.plan_table.specs.Whole.{whole_of};
ghost use Rattle.plan_table.specs.Found.{scope_at};
ghost use Rattle.plan_sight.specs.Ready.{IsReady, told_in};
ghost use Rattle.plan_sight.specs.Seen.{Yields};
ghost use Rattle.plan_names.specs.Named.{is_spelled, gathered, Gathers, one_spelled, GathersOne, IsCopy, Pushes};
ghost use Rattle.plan_names.specs.Named.{HasCount};

use crate::spelled::{is_spelled, key_formed};
use arm_ids::{Key, Place};
use arm_value::{OutOfMemory, Text, Value};
use plan_sight::lack::Lack;
use plan_sight::look::read_at;
use plan_table::table::Table;
use std::alloc::Global;

// What is sought: a text, of a place.
#[derive(Clone, Copy, Drop)]
struct Asked<'a> {
    text: &'a Text,
    place: &'a Place,
}

// The number of instances that a count says.
fn copies(value: &Value) -> usize
    ensures { result ≡ copies (Some (json value.now)) }
{
    match value {
        Value::Int(number) => if *number < 0 { 0 } else { *number as usize },
        _ => 0,
    }
}

// Adds the key of a type and a name.
fn push_key(
    alloc: Global,
    keys: &mut Vec<Key>,
    place: &Place,
    kind: &Text,
    name: &Text,
) -> Result<(), OutOfMemory>
    ensures { IfOk result (λ _. keys.new.items ≡ keys.old.items ++ key_at place.now kind.now name.now ∷ []) }
{
    let key = key_formed(alloc, place, kind.as_str(), name.as_str())?;
    keys.push(key)?;
    Ok(())
}

// Adds the key of a type and a name, where the text names it.
fn push_named(
    alloc: Global,
    keys: &mut Vec<Key>,
    asked: Asked,
    kind: &Text,
    name: &Text,
) -> Result<(), OutOfMemory>
    ensures { IfOk result (λ _. keys.new.items ≡ keys.old.items
        ++ (if is_spelled asked.entry.text.now kind.now name.now
        then key_at asked.entry.place.now kind.now name.now ∷ [] else [])) }
{
    if is_spelled(alloc, asked.text, kind.as_str(), name.as_str())? {
        push_key(alloc, keys, asked.place, kind, name)
    } else {
        Ok(())
    }
}

// Adds the key of a type and the value of a name, where the text names it. A name that is no text has no value.
fn push_name(
    alloc: Global,
    keys: &mut Vec<Key>,
    asked: Asked,
    kind: &Text,
    name: &Value,
) -> Result<(), Lack>
    ensures { Pushes asked.entry.text.now (spelled_by asked.entry.place.now kind.now (json name.now))
        keys.old.items keys.new.items result }
{
    match name {
        Value::Text(name) => match push_named(alloc, keys, asked, kind, name) {
            Ok(()) => Ok(()),
            Err(_) => Err(Lack::OutOfMemory),
        },
        _ => Err(Lack::NoValue),
    }
}

// Adds the key of an instance, where the text names it.
fn gather_instance(
    alloc: Global,
    keys: &mut Vec<Key>,
    table: &Table,
    frame: usize,
    number: usize,
    copy: usize,
    asked: Asked,
) -> Result<(), Lack>
    requires ready { IsReady table.now }
    requires there { frame < length table.now.frames.items }
    requires resource { number < length (scope_at table.now frame).resources }
    requires number { IsNumber (scope_at table.now frame) number }
    requires copy { IsCopy table.now frame number copy }
    ensures { (x : cells.Listed) → slice_get (scope_at table.now frame).resources number ≡ Some x
        → GathersOne table.now asked.entry.text.now keys.old.items keys.new.items result (told_in table.now
        (one_spelled asked.entry.place.now (scope_at table.now frame).position number x.type copy)) }
{
    let kind = &table.frames[frame].resources[number].kind;
    match table.name_line(alloc, frame, number, copy) {
        Ok(Some(at)) => match read_at(table, at) {
            Ok(name) => push_name(alloc, keys, asked, kind, name),
            Err(lack) => Err(lack),
        },
        Ok(None) => unreachable!(),
        Err(_) => Err(Lack::OutOfMemory),
    }
}

// Adds the keys of the instances of a resource that the text names.
fn gather_instances(
    alloc: Global,
    keys: &mut Vec<Key>,
    table: &Table,
    frame: usize,
    number: usize,
    count: usize,
    asked: Asked,
) -> Result<(), Lack>
    requires ready { IsReady table.now }
    requires there { frame < length table.now.frames.items }
    requires resource { number < length (scope_at table.now frame).resources }
    requires number { IsNumber (scope_at table.now frame) number }
    requires count { HasCount table.now frame number count }
    ensures { (x : cells.Listed) → slice_get (scope_at table.now frame).resources number ≡ Some x
        → Gathers table.now asked.entry.text.now keys.old.items keys.new.items result (told_in table.now
        (instances_spelled asked.entry.place.now (scope_at table.now frame).position number x.type 0 count)) }
{
    for copy in 0..count {
        match gather_instance(alloc, keys, table, frame, number, copy, asked) {
            Ok(()) => {}
            Err(lack) => return Err(lack),
        }
    }
    Ok(())
}

// Adds the keys of the instances of a resource that is not existing, by the line of its count.
fn gather_counted(
    alloc: Global,
    keys: &mut Vec<Key>,
    table: &Table,
    frame: usize,
    number: usize,
    asked: Asked,
) -> Result<(), Lack>
    requires ready { IsReady table.now }
    requires there { frame < length table.now.frames.items }
    requires resource { number < length (scope_at table.now frame).resources }
    requires number { IsNumber (scope_at table.now frame) number }
    ensures { (x : cells.Listed) → slice_get (scope_at table.now frame).resources number ≡ Some x
        → Gathers table.now asked.entry.text.now keys.old.items keys.new.items result (told_in table.now
        (resource_spelled asked.entry.place.now (scope_at table.now frame).position number x)) }
{
    match table.count_line(alloc, frame, number) {
        Ok(Some(at)) => match read_at(table, at) {
            Ok(value) => gather_instances(alloc, keys, table, frame, number, copies(value), asked),
            Err(lack) => Err(lack),
        },
        Ok(None) => unreachable!(),
        Err(_) => Err(Lack::OutOfMemory),
    }
}

// Adds the keys of the instances of a resource that the text names.
fn gather_resource(
    alloc: Global,
    keys: &mut Vec<Key>,
    table: &Table,
    frame: usize,
    number: usize,
    asked: Asked,
) -> Result<(), Lack>
    requires ready { IsReady table.now }
    requires there { frame < length table.now.frames.items }
    requires resource { number < length (scope_at table.now frame).resources }
    ensures { (x : cells.Listed) → slice_get (scope_at table.now frame).resources number ≡ Some x
        → Gathers table.now asked.entry.text.now keys.old.items keys.new.items result (told_in table.now
        (resource_spelled asked.entry.place.now (scope_at table.now frame).position number x)) }
{
    if table.frames[frame].resources[number].declaration.existing {
        return Ok(());
    }
    gather_counted(alloc, keys, table, frame, number, asked)
}

/// The keys of the instances of a scope that the text names, in their order.
pub fn gather_all(
    alloc: Global,
    table: &Table,
    frame: usize,
    place: &Place,
    text: &Text,
) -> Result<Vec<Key>, Lack>
    requires ready { IsReady table.now }
    requires there { frame < length table.now.frames.items }
    ensures { Yields (λ ks. ks.items) table.now result (gathered text.now [] (told_in table.now
        (all_spelled place.now (scope_at table.now frame).position 0 (scope_at table.now frame).resources))) }
{
    let mut keys = Vec::new(alloc);
    let asked = Asked { text, place };
    let resources = table.frames[frame].resources.as_slice();
    for number in 0..resources.len() {
        match gather_resource(alloc, &mut keys, table, frame, number, asked) {
            Ok(()) => {}
            Err(lack) => return Err(lack),
        }
    }
    Ok(keys)
}
