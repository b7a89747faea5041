// Where parts are in texts and arrays.
ghost use Rattle.std.specs.Prelude.{◌≡◌, ◌∷◌, [], map, option_map, IfOk, is_some};
ghost use Rattle.arm_value.specs.Look.{fold};
ghost use Rattle.arm_value.specs.View.{json};
ghost use Rattle.function_texts.specs.Places as row;
ghost use Rattle.function_texts.specs.Places.{begins, ends, first_from, last_from, place, starts_text, ends_text};
ghost use Rattle.function_texts.specs.Places.{index_in, last_index_in, has_part};

use crate::letters::{Case, all_cased};
use crate::search::{first_part, last_part};
use arm_value::{OutOfMemory, Text, Value};
use function_lists::characters::characters_of;
use function_lists::items::{first_place, is_among, last_place};
use function_lists::members::has_key;
use function_lists::sizes::number_from;
use std::alloc::Global;

/// Whether the characters begin with the part.
pub fn begins(part: &[char], characters: &[char]) -> bool
    ensures { result ≡ begins part.now characters.now }
{
    if characters.len() < part.len() {
        return false;
    }
    for i in 0..part.len() {
        if part[i] != characters[i] {
            return false;
        }
    }
    true
}

// Whether the characters end with the part.
fn ends(part: &[char], characters: &[char]) -> bool
    ensures { result ≡ ends part.now characters.now }
{
    if characters.len() < part.len() {
        return false;
    }
    begins(part, &characters[characters.len() - part.len()..])
}

// The characters with small letters in place of `A` to `Z`.
fn folded(alloc: Global, text: &Text) -> Result<Vec<char>, OutOfMemory>
    ensures { IfOk result (λ all. all.items ≡ fold text.now) }
{
    let characters = characters_of(alloc, text)?;
    all_cased(alloc, Case::Small, characters.as_slice())
}

fn text_begins(alloc: Global, text: &Text, part: &Text) -> Result<bool, OutOfMemory>
    ensures { IfOk result (λ b. b ≡ begins (fold part.now) (fold text.now)) }
{
    let characters = folded(alloc, text)?;
    let part = folded(alloc, part)?;
    Ok(begins(part.as_slice(), characters.as_slice()))
}

fn starts_text(alloc: Global, text: &Value, part: &Value) -> Result<Option<Value>, OutOfMemory>
    ensures { IfOk result (λ value. option_map json value ≡ starts_text (json text.now) (json part.now)) }
{
    match (text, part) {
        (Value::Text(text), Value::Text(part)) => {
            Ok(Some(Value::Bool(text_begins(alloc, text, part)?)))
        }
        _ => Ok(None),
    }
}

/// `startsWith`: whether the text begins with the part, whatever the case of ASCII letters.
pub fn starts_with(alloc: Global, args: &[Value]) -> Result<Option<Value>, OutOfMemory>
    ensures { IfOk result (λ value. option_map json value ≡ row.starts_with (map json args.now)) }
{
    match args {
        [text, part] => starts_text(alloc, text, part),
        _ => Ok(None),
    }
}

fn text_ends(alloc: Global, text: &Text, part: &Text) -> Result<bool, OutOfMemory>
    ensures { IfOk result (λ b. b ≡ ends (fold part.now) (fold text.now)) }
{
    let characters = folded(alloc, text)?;
    let part = folded(alloc, part)?;
    Ok(ends(part.as_slice(), characters.as_slice()))
}

fn ends_text(alloc: Global, text: &Value, part: &Value) -> Result<Option<Value>, OutOfMemory>
    ensures { IfOk result (λ value. option_map json value ≡ ends_text (json text.now) (json part.now)) }
{
    match (text, part) {
        (Value::Text(text), Value::Text(part)) => {
            Ok(Some(Value::Bool(text_ends(alloc, text, part)?)))
        }
        _ => Ok(None),
    }
}

/// `endsWith`: whether the text ends with the part, whatever the case of ASCII letters.
pub fn ends_with(alloc: Global, args: &[Value]) -> Result<Option<Value>, OutOfMemory>
    ensures { IfOk result (λ value. option_map json value ≡ row.ends_with (map json args.now)) }
{
    match args {
        [text, part] => ends_text(alloc, text, part),
        _ => Ok(None),
    }
}

// A place as a number, -1 where there is none; none beyond 64 bits with a sign.
fn place(found: Option<usize>) -> Option<Value>
    ensures { option_map json result ≡ place found }
{
    match found {
        Some(place) => Some(Value::Int(number_from(place)?)),
        None => Some(Value::Int(-1)),
    }
}

fn first_in(alloc: Global, text: &Text, part: &Text) -> Result<Option<usize>, OutOfMemory>
    ensures { IfOk result (λ found. found ≡ first_from 0 (fold part.now) (fold text.now)) }
{
    let characters = folded(alloc, text)?;
    let part = folded(alloc, part)?;
    first_part(alloc, part.as_slice(), characters.as_slice())
}

#[tactic(auto, using(crate::proofs::RowRules::items_of_row))]
fn index_in(alloc: Global, value: &Value, part: &Value) -> Result<Option<Value>, OutOfMemory>
    ensures { IfOk result (λ index. option_map json index ≡ index_in (json value.now) (json part.now)) }
{
    match value {
        Value::Array(items) => Ok(place(first_place(items.as_slice(), part))),
        Value::Text(text) => match part {
            Value::Text(part) => Ok(place(first_in(alloc, text, part)?)),
            _ => Ok(None),
        },
        _ => Ok(None),
    }
}

/// `indexOf`: the least place of a part in a text, whatever the case of ASCII letters, or of an
/// equal item in an array, counted from 0; -1 where there is none.
pub fn index_of(alloc: Global, args: &[Value]) -> Result<Option<Value>, OutOfMemory>
    ensures { IfOk result (λ value. option_map json value ≡ row.index_of (map json args.now)) }
{
    match args {
        [value, part] => index_in(alloc, value, part),
        _ => Ok(None),
    }
}

fn last_in(alloc: Global, text: &Text, part: &Text) -> Result<Option<usize>, OutOfMemory>
    ensures { IfOk result (λ found. found ≡ last_from 0 (fold part.now) (fold text.now)) }
{
    let characters = folded(alloc, text)?;
    let part = folded(alloc, part)?;
    last_part(alloc, part.as_slice(), characters.as_slice())
}

#[tactic(auto, using(crate::proofs::RowRules::items_of_row))]
fn last_index_in(alloc: Global, value: &Value, part: &Value) -> Result<Option<Value>, OutOfMemory>
    ensures { IfOk result (λ index. option_map json index ≡ last_index_in (json value.now) (json part.now)) }
{
    match value {
        Value::Array(items) => Ok(place(last_place(items.as_slice(), part))),
        Value::Text(text) => match part {
            Value::Text(part) => Ok(place(last_in(alloc, text, part)?)),
            _ => Ok(None),
        },
        _ => Ok(None),
    }
}

/// `lastIndexOf`: the greatest place that `indexOf` would find alone; -1 where there is none.
pub fn last_index_of(alloc: Global, args: &[Value]) -> Result<Option<Value>, OutOfMemory>
    ensures { IfOk result (λ value. option_map json value ≡ row.last_index_of (map json args.now)) }
{
    match args {
        [value, part] => last_index_in(alloc, value, part),
        _ => Ok(None),
    }
}

fn text_has(alloc: Global, text: &Text, part: &Text) -> Result<bool, OutOfMemory>
    ensures { IfOk result (λ b. b ≡ is_some (first_from 0 part.now text.now)) }
{
    let characters = characters_of(alloc, text)?;
    let part = characters_of(alloc, part)?;
    Ok(first_part(alloc, part.as_slice(), characters.as_slice())?.is_some())
}

#[tactic(auto, using(crate::proofs::RowRules::rows_and_pairs))]
fn has_part(alloc: Global, value: &Value, part: &Value) -> Result<Option<Value>, OutOfMemory>
    ensures { IfOk result (λ has. option_map json has ≡ has_part (json value.now) (json part.now)) }
{
    match value {
        Value::Array(items) => Ok(Some(Value::Bool(is_among(items.as_slice(), part)))),
        Value::Text(text) => match part {
            Value::Text(part) => Ok(Some(Value::Bool(text_has(alloc, text, part)?))),
            _ => Ok(None),
        },
        Value::Object(fields) => match part {
            Value::Text(key) => Ok(Some(Value::Bool(has_key(fields, key)))),
            _ => Ok(None),
        },
        _ => Ok(None),
    }
}

/// `contains`: whether a text has the part exactly, an array an equal item, or an object the key
/// whatever the case of ASCII letters.
pub fn contains(alloc: Global, args: &[Value]) -> Result<Option<Value>, OutOfMemory>
    ensures { IfOk result (λ value. option_map json value ≡ row.contains (map json args.now)) }
{
    match args {
        [value, part] => has_part(alloc, value, part),
        _ => Ok(None),
    }
}
