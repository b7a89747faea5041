// Parts of texts, and texts with parts replaced.
ghost use Rattle.std.specs.Prelude.{◌≡◌, ◌<◌, ◌∷◌, ◌++◌, [], length, drop, map, option_map, IfOk, OnOk};
ghost use Rattle.arm_value.specs.Json.{text};
ghost use Rattle.arm_value.specs.View.{json};
ghost use Rattle.function_texts.specs.Search.{AreBorders};
ghost use Rattle.function_texts.specs.Cuts as row;
ghost use Rattle.function_texts.specs.Cuts.{count_of, rest_from, part, cut, cut_part, replaced, replaced_in};
ghost use Rattle.function_texts.specs.Cuts.{replaced_text};

use crate::search::{borders_of, first_with};
use arm_value::{OutOfMemory, Text, Value};
use function_lists::characters::{characters_of, text_of_characters};
use function_numbers::kinds::text_of;
use std::alloc::Global;

// The number that the value is, where it is not below 0.
fn count_of(value: &Value) -> Option<u64>
    ensures { result ≡ count_of (json value.now) }
{
    match value {
        Value::Int(number) => if *number >= 0 {
            Some(*number as u64)
        } else {
            None
        },
        _ => None,
    }
}

fn rest_from(characters: &[char], start: u64) -> Option<&[char]>
    ensures { option_map (λ s. s.now) result ≡ rest_from characters.now start }
{
    if start <= characters.len() as u64 {
        Some(&characters[start as usize..])
    } else {
        None
    }
}

fn part(characters: &[char], start: u64, count: u64) -> Option<&[char]>
    ensures { option_map (λ s. s.now) result ≡ part characters.now start count }
{
    let length = characters.len() as u64;
    if start <= length && count <= length - start {
        Some(&characters[start as usize..(start + count) as usize])
    } else {
        None
    }
}

fn text_rest(alloc: Global, value: &Text, start: u64) -> Result<Option<Value>, OutOfMemory>
    ensures { IfOk result (λ rest. option_map json rest ≡ option_map text (rest_from value.now start)) }
{
    let characters = characters_of(alloc, value)?;
    match rest_from(characters.as_slice(), start) {
        Some(rest) => Ok(Some(Value::Text(text_of_characters(alloc, rest)?))),
        None => Ok(None),
    }
}

fn text_part(
    alloc: Global,
    value: &Text,
    start: u64,
    count: u64,
) -> Result<Option<Value>, OutOfMemory>
    ensures { IfOk result (λ found. option_map json found ≡ option_map text (part value.now start count)) }
{
    let characters = characters_of(alloc, value)?;
    match part(characters.as_slice(), start, count) {
        Some(found) => Ok(Some(Value::Text(text_of_characters(alloc, found)?))),
        None => Ok(None),
    }
}

fn cut(alloc: Global, value: &Value, start: &Value) -> Result<Option<Value>, OutOfMemory>
    ensures { IfOk result (λ rest. option_map json rest ≡ cut (json value.now) (json start.now)) }
{
    match text_of(value) {
        Some(value) => match count_of(start) {
            Some(start) => text_rest(alloc, value, start),
            None => Ok(None),
        },
        None => Ok(None),
    }
}

fn cut_part(
    alloc: Global,
    value: &Value,
    start: &Value,
    count: &Value,
) -> Result<Option<Value>, OutOfMemory>
    ensures { IfOk result (λ found. option_map json found
        ≡ cut_part (json value.now) (json start.now) (json count.now)) }
{
    match text_of(value) {
        Some(value) => match count_of(start) {
            Some(start) => match count_of(count) {
                Some(count) => text_part(alloc, value, start, count),
                None => Ok(None),
            },
            None => Ok(None),
        },
        None => Ok(None),
    }
}

/// `substring`: so many characters of a text from a place on, or all from there; none where the
/// place or the count is below 0, or the text has not so many.
pub fn substring(alloc: Global, args: &[Value]) -> Result<Option<Value>, OutOfMemory>
    ensures { IfOk result (λ value. option_map json value ≡ row.substring (map json args.now)) }
{
    match args {
        [value, start] => cut(alloc, value, start),
        [value, start, count] => cut_part(alloc, value, start, count),
        _ => Ok(None),
    }
}

// Puts what is before a part, and what it is replaced by.
fn put_both(out: &mut Vec<char>, before: &[char], new: &[char]) -> Result<(), OutOfMemory>
    ensures { OnOk result (out.new.items ≡ (out.old.items ++ before.now) ++ new.now) }
{
    out.extend_from_slice(before)?;
    out.extend_from_slice(new)?;
    Ok(())
}

fn replaced_with(
    alloc: Global,
    characters: &[char],
    old: &[char],
    borders: &[usize],
    new: &[char],
) -> Result<Vec<char>, OutOfMemory>
    requires some { 0 < length old.now }
    requires borders { AreBorders old.now borders.now }
    requires enough { length old.now < length borders.now }
    ensures { IfOk result (λ out. out.items ≡ replaced old.now new.now characters.now) }
{
    let mut out = Vec::new(alloc);
    let mut start = 0usize;
    'places: while let Some(place) = first_with(old, borders, &characters[start..]) {
        put_both(&mut out, &characters[start..start + place], new)?;
        start += place + old.len();
    }
    out.extend_from_slice(&characters[start..])?;
    Ok(out)
}

// The characters with each place of the part replaced.
fn replaced(
    alloc: Global,
    characters: &[char],
    old: &[char],
    new: &[char],
) -> Result<Vec<char>, OutOfMemory>
    requires { 0 < length old.now }
    ensures { IfOk result (λ out. out.items ≡ replaced old.now new.now characters.now) }
{
    let borders = borders_of(alloc, old)?;
    replaced_with(alloc, characters, old, borders.as_slice(), new)
}

// The text with each place of a part that is not empty replaced.
fn text_replaced(alloc: Global, value: &Text, old: &[char], new: &Text) -> Result<Text, OutOfMemory>
    requires { 0 < length old.now }
    ensures { IfOk result (λ out. out ≡ replaced old.now new.now value.now) }
{
    let new = characters_of(alloc, new)?;
    let characters = characters_of(alloc, value)?;
    let out = replaced(alloc, characters.as_slice(), old, new.as_slice())?;
    text_of_characters(alloc, out.as_slice())
}

fn replaced_in(
    alloc: Global,
    value: &Text,
    old: &Text,
    new: &Text,
) -> Result<Option<Value>, OutOfMemory>
    ensures { IfOk result (λ out. option_map json out ≡ replaced_in value.now old.now new.now) }
{
    let old = characters_of(alloc, old)?;
    if old.is_empty() {
        return Ok(None);
    }
    let out = text_replaced(alloc, value, old.as_slice(), new)?;
    Ok(Some(Value::Text(out)))
}

fn replaced_text(
    alloc: Global,
    value: &Value,
    old: &Value,
    new: &Value,
) -> Result<Option<Value>, OutOfMemory>
    ensures { IfOk result (λ out. option_map json out
        ≡ replaced_text (json value.now) (json old.now) (json new.now)) }
{
    match text_of(value) {
        Some(value) => match text_of(old) {
            Some(old) => match text_of(new) {
                Some(new) => replaced_in(alloc, value, old, new),
                None => Ok(None),
            },
            None => Ok(None),
        },
        None => Ok(None),
    }
}

/// `replace`: the text with each place of a part replaced, from the left and without overlaps, the
/// part compared exactly; none for an empty part.
pub fn replace(alloc: Global, args: &[Value]) -> Result<Option<Value>, OutOfMemory>
    ensures { IfOk result (λ value. option_map json value ≡ row.replace (map json args.now)) }
{
    match args {
        [value, old, new] => replaced_text(alloc, value, old, new),
        _ => Ok(None),
    }
}
