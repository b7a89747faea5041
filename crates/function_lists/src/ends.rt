// First and last parts of arrays and texts.
ghost use Rattle.std.specs.Prelude.{◌≡◌, ◌∷◌, ◌-◌, [], take, drop, length, slice_get, map, option_map, IfOk};
ghost use Rattle.arm_value.specs.View.{json};
ghost use Rattle.function_lists.specs.Values.{array_of, or_null};
ghost use Rattle.function_lists.specs.Ends as row;
ghost use Rattle.function_lists.specs.Ends.{amount, first_part, last_part, without_front, front_alone};

use crate::characters::{after_front, front_of, last_of};
use crate::values::{array_of, copies, copy_or_null};
use arm_value::{Items, OutOfMemory, Text, Value};
use std::alloc::Global;

// The count, 0 where it is below that.
fn amount(count: i64) -> u64
    ensures { result ≡ amount count }
{
    if count <= 0 { 0 } else { count as u64 }
}

// The elements after so many.
fn after<T>(elements: &[T], count: u64) -> &[T]
    ensures { result.now ≡ drop count elements.now }
{
    if elements.len() as u64 <= count {
        return &[];
    }
    &elements[count as usize..]
}

// So many elements at the front.
fn before<T>(elements: &[T], count: u64) -> &[T]
    ensures { result.now ≡ take count elements.now }
{
    if elements.len() as u64 <= count {
        return elements;
    }
    &elements[..count as usize]
}

fn first_character(alloc: Global, text: &Text) -> Result<Text, OutOfMemory>
    ensures { IfOk result (λ t. t ≡ take 1 text.now) }
{
    Text::of(alloc, front_of(text.as_str(), 1))
}

#[tactic(auto, using(function_numbers::proofs::RowLemmas::items_of_row))]
fn first_part(alloc: Global, value: &Value) -> Result<Option<Value>, OutOfMemory>
    ensures { IfOk result (λ part. option_map json part ≡ first_part (json value.now)) }
{
    match value {
        Value::Array(items) => Ok(Some(copy_or_null(alloc, items.at(0))?)),
        Value::Text(text) => Ok(Some(Value::Text(first_character(alloc, text)?))),
        _ => Ok(None),
    }
}

/// `first`: the first item of an array, null where it has none, or the text of the first character.
pub fn first(alloc: Global, args: &[Value]) -> Result<Option<Value>, OutOfMemory>
    ensures { IfOk result (λ value. option_map json value ≡ row.first (map json args.now)) }
{
    match args {
        [value] => first_part(alloc, value),
        _ => Ok(None),
    }
}

fn last_character(alloc: Global, text: &Text) -> Result<Text, OutOfMemory>
    ensures { IfOk result (λ t. t ≡ drop (length text.now - 1) text.now) }
{
    Text::of(alloc, last_of(text.as_str()))
}

fn last_item(items: &Items) -> Option<&Value>
    ensures { option_map (λ v. json v.now) result ≡ slice_get items.now (length items.now - 1) }
{
    if items.len() == 0 {
        return None;
    }
    items.at(items.len() - 1)
}

#[tactic(auto, using(function_numbers::proofs::RowLemmas::items_of_row))]
fn last_part(alloc: Global, value: &Value) -> Result<Option<Value>, OutOfMemory>
    ensures { IfOk result (λ part. option_map json part ≡ last_part (json value.now)) }
{
    match value {
        Value::Array(items) => Ok(Some(copy_or_null(alloc, last_item(items))?)),
        Value::Text(text) => Ok(Some(Value::Text(last_character(alloc, text)?))),
        _ => Ok(None),
    }
}

/// `last`: the last item of an array, null where it has none, or the text of the last character.
pub fn last(alloc: Global, args: &[Value]) -> Result<Option<Value>, OutOfMemory>
    ensures { IfOk result (λ value. option_map json value ≡ row.last (map json args.now)) }
{
    match args {
        [value] => last_part(alloc, value),
        _ => Ok(None),
    }
}

fn text_after(alloc: Global, text: &Text, count: u64) -> Result<Text, OutOfMemory>
    ensures { IfOk result (λ t. t ≡ drop count text.now) }
{
    Text::of(alloc, after_front(text.as_str(), count))
}

fn items_after(alloc: Global, items: &Items, count: u64) -> Result<Option<Value>, OutOfMemory>
    ensures { IfOk result (λ value. option_map json value ≡ array_of (drop count items.now)) }
{
    let copies = copies(alloc, after(items.as_slice(), count))?;
    Ok(array_of(copies))
}

#[tactic(auto, using(function_numbers::proofs::RowLemmas::items_of_row))]
fn without_front(alloc: Global, value: &Value, count: &Value) -> Result<Option<Value>, OutOfMemory>
    ensures { IfOk result (λ part. option_map json part ≡ without_front (json value.now) (json count.now)) }
{
    match (value, count) {
        (Value::Array(items), Value::Int(count)) => items_after(alloc, items, amount(*count)),
        (Value::Text(text), Value::Int(count)) => Ok(Some(Value::Text(text_after(
            alloc,
            text,
            amount(*count),
        )?))),
        _ => Ok(None),
    }
}

/// `skip`: an array or a text without so many items or characters at the front.
///
/// A count below 0 counts as 0, and one beyond the length as the length.
pub fn skip(alloc: Global, args: &[Value]) -> Result<Option<Value>, OutOfMemory>
    ensures { IfOk result (λ value. option_map json value ≡ row.skip (map json args.now)) }
{
    match args {
        [value, count] => without_front(alloc, value, count),
        _ => Ok(None),
    }
}

fn text_before(alloc: Global, text: &Text, count: u64) -> Result<Text, OutOfMemory>
    ensures { IfOk result (λ t. t ≡ take count text.now) }
{
    Text::of(alloc, front_of(text.as_str(), count))
}

fn items_before(alloc: Global, items: &Items, count: u64) -> Result<Option<Value>, OutOfMemory>
    ensures { IfOk result (λ value. option_map json value ≡ array_of (take count items.now)) }
{
    let copies = copies(alloc, before(items.as_slice(), count))?;
    Ok(array_of(copies))
}

#[tactic(auto, using(function_numbers::proofs::RowLemmas::items_of_row))]
fn front_alone(alloc: Global, value: &Value, count: &Value) -> Result<Option<Value>, OutOfMemory>
    ensures { IfOk result (λ part. option_map json part ≡ front_alone (json value.now) (json count.now)) }
{
    match (value, count) {
        (Value::Array(items), Value::Int(count)) => items_before(alloc, items, amount(*count)),
        (Value::Text(text), Value::Int(count)) => Ok(Some(Value::Text(text_before(
            alloc,
            text,
            amount(*count),
        )?))),
        _ => Ok(None),
    }
}

/// `take`: so many items or characters at the front of an array or a text.
///
/// A count below 0 counts as 0, and one beyond the length as the length.
pub fn take(alloc: Global, args: &[Value]) -> Result<Option<Value>, OutOfMemory>
    ensures { IfOk result (λ value. option_map json value ≡ row.take (map json args.now)) }
{
    match args {
        [value, count] => front_alone(alloc, value, count),
        _ => Ok(None),
    }
}
