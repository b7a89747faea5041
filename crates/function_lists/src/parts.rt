// Parts of values that may be missing.
ghost use Rattle.std.specs.Prelude.{◌≡◌, chars, map, option_map, IfOk};
ghost use Rattle.arm_value.specs.View.{json};
ghost use Rattle.function_lists.specs.Values.{or_null};
ghost use Rattle.function_lists.specs.Members as row;
ghost use Rattle.function_lists.specs.Members.{element, part_of_null, part_of_items, part_of_members, part_of};
ghost use Rattle.function_lists.specs.Members.{part_along, tried};

use crate::values::copy_or_null;
use arm_value::{Fields, Items, OutOfMemory, Value};
use std::alloc::Global;

// The item at a place, which may be below 0.
fn element(items: &Items, place: i64) -> Option<&Value>
    ensures { option_map (λ v. json v.now) result ≡ element place items.now }
{
    if place < 0 {
        return None;
    }
    items.at(place as usize)
}

// In the results below none means null.

fn part_of_null<'a>(part: &Value) -> Option<Option<&'a Value>>
    ensures { option_map (λ o. or_null (option_map (λ v. json v.now) o)) result ≡ part_of_null (json part.now) }
{
    match part {
        Value::Text(_) => Some(None),
        Value::Int(_) => Some(None),
        _ => None,
    }
}

fn part_of_items<'a>(items: &'a Items, part: &Value) -> Option<Option<&'a Value>>
    ensures { option_map (λ o. or_null (option_map (λ v. json v.now) o)) result
        ≡ part_of_items items.now (json part.now) }
{
    match part {
        Value::Text(_) => Some(None),
        Value::Int(place) => Some(element(items, *place)),
        _ => None,
    }
}

fn part_of_members<'a>(fields: &'a Fields, part: &Value) -> Option<Option<&'a Value>>
    ensures { option_map (λ o. or_null (option_map (λ v. json v.now) o)) result
        ≡ part_of_members fields.now (json part.now) }
{
    match part {
        Value::Text(name) => Some(fields.look(name.as_str())),
        Value::Int(_) => Some(None),
        _ => None,
    }
}

#[tactic(auto, using(function_numbers::proofs::RowLemmas::rows_and_pairs))]
fn part_of_value<'a>(value: &'a Value, part: &Value) -> Option<Option<&'a Value>>
    ensures { option_map (λ o. or_null (option_map (λ v. json v.now) o)) result
        ≡ part_of (json value.now) (json part.now) }
{
    match value {
        Value::Null => part_of_null(part),
        Value::Array(items) => part_of_items(items, part),
        Value::Object(fields) => part_of_members(fields, part),
        _ => None,
    }
}

fn part_of<'a>(here: Option<&'a Value>, part: &Value) -> Option<Option<&'a Value>>
    ensures { option_map (λ o. or_null (option_map (λ v. json v.now) o)) result
        ≡ part_of (or_null (option_map (λ v. json v.now) here.entry)) (json part.now) }
{
    match here {
        Some(value) => part_of_value(value, part),
        None => part_of_null(part),
    }
}

fn part_along<'a>(value: &'a Value, path: &[Value]) -> Option<Option<&'a Value>>
    ensures { option_map (λ o. or_null (option_map (λ v. json v.now) o)) result
        ≡ part_along (json value.now) (map json path.now) }
{
    let mut here = Some(value);
    for part in path {
        match part_of(here, part) {
            Some(next) => here = next,
            None => return None,
        }
    }
    Some(here)
}

fn tried(alloc: Global, value: &Value, path: &[Value]) -> Result<Option<Value>, OutOfMemory>
    ensures { IfOk result (λ part. option_map json part ≡ tried (json value.now) (map json path.now)) }
{
    if path.is_empty() {
        return Ok(None);
    }
    match part_along(value, path) {
        Some(part) => Ok(Some(copy_or_null(alloc, part)?)),
        None => Ok(None),
    }
}

/// `tryGet`: the part of the part of the value, by names in objects and places in arrays.
///
/// It is null where a part is missing or null, and none where a value on the way has no parts, or
/// where a part is asked for by neither a text nor a number.
pub fn try_get(alloc: Global, args: &[Value]) -> Result<Option<Value>, OutOfMemory>
    ensures { IfOk result (λ value. option_map json value ≡ row.try_get (map json args.now)) }
{
    match args {
        [value, path @ ..] => tried(alloc, value, path),
        [] => Ok(None),
    }
}
