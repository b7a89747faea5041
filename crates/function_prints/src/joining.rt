// Printed forms joined.
ghost use Rattle.std.specs.Prelude.{◌≡◌, ◌∷◌, ◌++◌, [], chars, string_bytes, map, option_map, IfOk, OnOk};
ghost use Rattle.std.specs.List.{flat_map};
ghost use Rattle.arm_value.specs.Json.{text};
ghost use Rattle.arm_value.specs.View.{json};
ghost use Rattle.function_prints.specs.Printed as row;
ghost use Rattle.function_prints.specs.Printed.{printed, printed_scalar, printed_scalars, concat_by, joined_by};
ghost use Rattle.function_prints.specs.Printed.{join_items};

use crate::printed::printed;
use arm_value::{OutOfMemory, Text, Value};
use function_lists::concat_arrays;
use std::alloc::Global;

/// Puts the text last.
pub fn add(out: &mut String, text: &Text) -> Result<(), OutOfMemory>
    ensures { OnOk result (chars (string_bytes out.new) ≡ chars (string_bytes out.old) ++ text.now) }
{
    out.push_str(text.as_str())?;
    Ok(())
}

fn printed_scalar(alloc: Global, value: &Value) -> Result<Option<Text>, OutOfMemory>
    ensures { IfOk result (λ text. text ≡ printed_scalar (json value.now)) }
{
    match value {
        Value::Text(_) => Ok(Some(printed(alloc, value)?)),
        Value::Int(_) => Ok(Some(printed(alloc, value)?)),
        Value::Bool(_) => Ok(Some(printed(alloc, value)?)),
        _ => Ok(None),
    }
}

// The printed forms of texts, numbers and truth values, one after another.
#[tactic(auto, using(crate::proofs::TextLemmas::characters))]
fn printed_scalars(alloc: Global, values: &[Value]) -> Result<Option<Text>, OutOfMemory>
    ensures { IfOk result (λ text. text ≡ printed_scalars (map json values.now)) }
{
    let mut out = String::new(alloc);
    for value in values {
        match printed_scalar(alloc, value)? {
            Some(text) => add(&mut out, &text)?,
            None => return Ok(None),
        }
    }
    Ok(Some(Text::from_string(out)))
}

fn concat_texts(alloc: Global, args: &[Value]) -> Result<Option<Value>, OutOfMemory>
    ensures { IfOk result (λ value. option_map json value ≡ option_map text (printed_scalars (map json args.now))) }
{
    match printed_scalars(alloc, args)? {
        Some(text) => Ok(Some(Value::Text(text))),
        None => Ok(None),
    }
}

fn concat_by(alloc: Global, first: &Value, args: &[Value]) -> Result<Option<Value>, OutOfMemory>
    ensures { IfOk result (λ value. option_map json value ≡ concat_by (json first.now) (map json args.now)) }
{
    match first {
        Value::Array(_) => concat_arrays(alloc, args),
        _ => concat_texts(alloc, args),
    }
}

/// `concat`: the items of arrays in one array, or the printed forms of texts, numbers and truth
/// values in one text; none of both kinds.
pub fn concat(alloc: Global, args: &[Value]) -> Result<Option<Value>, OutOfMemory>
    ensures { IfOk result (λ value. option_map json value ≡ row.concat (map json args.now)) }
{
    match args {
        [first, ..] => concat_by(alloc, first, args),
        [] => Ok(None),
    }
}

// Puts the printed forms last, each after the text.
fn add_all(
    alloc: Global,
    out: &mut String,
    between: &Text,
    values: &[Value],
) -> Result<(), OutOfMemory>
    ensures { OnOk result (chars (string_bytes out.new)
        ≡ chars (string_bytes out.old) ++ flat_map (λ j. between.now ++ printed j) (map json values.now)) }
{
    for value in values {
        let text = printed(alloc, value)?;
        add(out, between)?;
        add(out, &text)?;
    }
    Ok(())
}

#[tactic(auto, using(crate::proofs::TextLemmas::characters))]
fn joined_from(
    alloc: Global,
    between: &Text,
    first: &Value,
    rest: &[Value],
) -> Result<Text, OutOfMemory>
    ensures { IfOk result (λ text. text
        ≡ printed (json first.now) ++ flat_map (λ j. between.now ++ printed j) (map json rest.now)) }
{
    let mut out = printed(alloc, first)?.into_string();
    add_all(alloc, &mut out, between, rest)?;
    Ok(Text::from_string(out))
}

#[tactic(auto, using(crate::proofs::TextLemmas::characters))]
fn nothing(alloc: Global) -> Text
    ensures { result ≡ [] }
{
    Text::from_string(String::new(alloc))
}

fn joined_by(alloc: Global, between: &Text, values: &[Value]) -> Result<Text, OutOfMemory>
    ensures { IfOk result (λ text. text ≡ joined_by between.now (map json values.now)) }
{
    match values {
        [first, rest @ ..] => joined_from(alloc, between, first, rest),
        [] => Ok(nothing(alloc)),
    }
}

#[tactic(auto, using(crate::proofs::RejoinLemmas::items_of_row))]
fn join_items(alloc: Global, value: &Value, between: &Value) -> Result<Option<Value>, OutOfMemory>
    ensures { IfOk result (λ text. option_map json text ≡ join_items (json value.now) (json between.now)) }
{
    match (value, between) {
        (Value::Array(items), Value::Text(between)) => {
            Ok(Some(Value::Text(joined_by(alloc, between, items.as_slice())?)))
        }
        _ => Ok(None),
    }
}

/// `join`: the printed forms of an array's items with a text between them.
pub fn join(alloc: Global, args: &[Value]) -> Result<Option<Value>, OutOfMemory>
    ensures { IfOk result (λ value. option_map json value ≡ row.join (map json args.now)) }
{
    match args {
        [value, between] => join_items(alloc, value, between),
        _ => Ok(None),
    }
}
