// Printed forms of a width.
ghost use Rattle.std.specs.Prelude.{◌≡◌, Some, None, Option, ℕ, map, option_map, IfOk};
ghost use Rattle.arm_value.specs.View.{json};
ghost use Rattle.function_prints.specs.Printed as row;
ghost use Rattle.function_prints.specs.Printed.{width_of, one_character, filled, fillable, pad_by, fill_of};

use crate::printed::printed;
use arm_value::{OutOfMemory, Text, Value};
use function_lists::characters::{characters_of, text_of_characters};
use function_texts::text_of;
use std::alloc::Global;

// A width that can be filled.
fn width_of(value: &Value) -> Option<usize>
    ensures { result ≡ width_of (json value.now) }
{
    match value {
        Value::Int(number) => if 0 <= *number && *number <= 10_000 {
            Some(*number as usize)
        } else {
            None
        },
        _ => None,
    }
}

fn one_character(characters: &[char]) -> Option<char>
    ensures { result ≡ one_character characters.now }
{
    match characters {
        [character] => Some(*character),
        _ => None,
    }
}

// The one character of a value that is a text.
fn fill_of(alloc: Global, value: &Value) -> Result<Option<char>, OutOfMemory>
    ensures { IfOk result (λ fill. fill ≡ fill_of (json value.now)) }
{
    match text_of(value) {
        Some(text) => {
            let characters = characters_of(alloc, text)?;
            Ok(one_character(characters.as_slice()))
        }
        None => Ok(None),
    }
}

// The text of a width, filled on its left.
fn filled(alloc: Global, width: usize, fill: char, text: &Text) -> Result<Text, OutOfMemory>
    ensures { IfOk result (λ t. t ≡ filled width fill text.now) }
{
    let characters = characters_of(alloc, text)?;
    let missing = width.saturating_sub(characters.as_slice().len());
    let mut all = vec![in alloc; fill; missing]?;
    all.extend_from_slice(characters.as_slice())?;
    text_of_characters(alloc, all.as_slice())
}

fn fillable(alloc: Global, value: &Value) -> Result<Option<Text>, OutOfMemory>
    ensures { IfOk result (λ text. text ≡ fillable (json value.now)) }
{
    match value {
        Value::Text(_) => Ok(Some(printed(alloc, value)?)),
        Value::Int(_) => Ok(Some(printed(alloc, value)?)),
        _ => Ok(None),
    }
}

fn pad_by(
    alloc: Global,
    value: &Value,
    width: &Value,
    fill: Option<char>,
) -> Result<Option<Value>, OutOfMemory>
    ensures { IfOk result (λ text. option_map json text ≡ pad_by (json value.now) (json width.now) fill) }
{
    match fill {
        Some(fill) => match width_of(width) {
            Some(width) => match fillable(alloc, value)? {
                Some(text) => Ok(Some(Value::Text(filled(alloc, width, fill, &text)?))),
                None => Ok(None),
            },
            None => Ok(None),
        },
        None => Ok(None),
    }
}

/// `padLeft`: the printed form of a text or a number, filled on its left to so many characters with
/// a character, a space where none is given; none of more than 10,000.
pub fn pad_left(alloc: Global, args: &[Value]) -> Result<Option<Value>, OutOfMemory>
    ensures { IfOk result (λ value. option_map json value ≡ row.pad_left (map json args.now)) }
{
    match args {
        [value, width] => pad_by(alloc, value, width, Some(' ')),
        [value, width, fill] => {
            let fill = fill_of(alloc, fill)?;
            pad_by(alloc, value, width, fill)
        }
        _ => Ok(None),
    }
}
