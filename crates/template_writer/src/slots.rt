// Objects whose members have fixed names.

ghost use Rattle.std.specs.Prelude.{◌≡◌, ◌≤◌, Some, option_map, IfOk};
ghost use Rattle.arm_value.specs.Json.{nesting, text, int};
ghost use Rattle.arm_value.specs.View.{json};
ghost use Rattle.template_written.specs.Slots.{put_slot, word, array_unless_empty, object_unless_empty, NestsWithin};

use arm_value::{Fields, Items, OutOfMemory, Text, Value};
use std::alloc::Global;
use template_parts::run_out;

/// The members with this value under the name.
#[tactic(auto, unfolding(template_written::specs::Slots::put_slot))]
pub fn put_value(
    alloc: Global,
    mut fields: Fields,
    name: &str,
    value: Value,
) -> Result<Fields, OutOfMemory>
    requires { nesting (json value) ≤ 119 }
    ensures { IfOk result (λ ms. ms ≡ put_slot name.now (Some (json value)) fields) }
{
    match fields.set(alloc, name, value) {
        Ok(()) => Ok(fields),
        Err(_) => run_out(fields),
    }
}

/// The members with a copy of this value under the name.
pub fn put_copy(
    alloc: Global,
    fields: Fields,
    name: &str,
    value: &Value,
) -> Result<Fields, OutOfMemory>
    requires { nesting (json value.now) ≤ 119 }
    ensures { IfOk result (λ ms. ms ≡ put_slot name.now (Some (json value.now)) fields) }
{
    match value.copy(alloc) {
        Ok(value) => put_value(alloc, fields, name, value),
        Err(_) => run_out(fields),
    }
}

/// The members with a copy of this value under the name, where it is there.
#[tactic(auto, unfolding(template_written::specs::Slots::put_slot))]
pub fn put_optional(
    alloc: Global,
    fields: Fields,
    name: &str,
    value: &Option<Value>,
) -> Result<Fields, OutOfMemory>
    requires { NestsWithin 119 (option_map json value.now) }
    ensures { IfOk result (λ ms. ms ≡ put_slot name.now (option_map json value.now) fields) }
{
    match value {
        Some(value) => put_copy(alloc, fields, name, value),
        None => Ok(fields),
    }
}

/// The members with this text under the name.
pub fn put_text(
    alloc: Global,
    fields: Fields,
    name: &str,
    value: &Text,
) -> Result<Fields, OutOfMemory>
    ensures { IfOk result (λ ms. ms ≡ put_slot name.now (Some (text value.now)) fields) }
{
    match value.copy(alloc) {
        Ok(text) => put_value(alloc, fields, name, Value::Text(text)),
        Err(_) => run_out(fields),
    }
}

/// The members with the text of this word under the name.
pub fn put_word(
    alloc: Global,
    fields: Fields,
    name: &str,
    value: &str,
) -> Result<Fields, OutOfMemory>
    ensures { IfOk result (λ ms. ms ≡ put_slot name.now (Some (word value.now)) fields) }
{
    match Text::of(alloc, value) {
        Ok(text) => put_value(alloc, fields, name, Value::Text(text)),
        Err(_) => run_out(fields),
    }
}

/// The members with this number under the name, where it is there.
#[tactic(auto, unfolding(template_written::specs::Slots::put_slot))]
pub fn put_number(
    alloc: Global,
    fields: Fields,
    name: &str,
    number: Option<i64>,
) -> Result<Fields, OutOfMemory>
    ensures { IfOk result (λ ms. ms ≡ put_slot name.now (option_map int number) fields) }
{
    match number {
        Some(number) => put_value(alloc, fields, name, Value::Int(number)),
        None => Ok(fields),
    }
}

// There are none of these; they are dropped.
fn without<T: Drop>(fields: Fields, _empty: T) -> Result<Fields, OutOfMemory>
    ensures { IfOk result (λ ms. ms ≡ fields) }
{
    Ok(fields)
}

/// The members with an array of these items under the name, unless there is none.
#[tactic(auto, unfolding(template_written::specs::Slots::put_slot))]
pub fn put_items(
    alloc: Global,
    fields: Fields,
    name: &str,
    items: Items,
) -> Result<Fields, OutOfMemory>
    requires { NestsWithin 119 (array_unless_empty items) }
    ensures { IfOk result (λ ms. ms ≡ put_slot name.now (array_unless_empty items) fields) }
{
    if items.len() == 0 {
        return without(fields, items);
    }
    put_value(alloc, fields, name, Value::Array(items))
}

/// The members with an object of these under the name, unless there is none.
#[tactic(auto, unfolding(template_written::specs::Slots::put_slot))]
pub fn put_members(
    alloc: Global,
    fields: Fields,
    name: &str,
    members: Fields,
) -> Result<Fields, OutOfMemory>
    requires { NestsWithin 119 (object_unless_empty members) }
    ensures { IfOk result (λ ms. ms ≡ put_slot name.now (object_unless_empty members) fields) }
{
    if members.len() == 0 {
        return without(fields, members);
    }
    put_value(alloc, fields, name, Value::Object(members))
}
