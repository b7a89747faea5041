//! The printed form of a value.
ghost use Rattle.std.specs.Prelude.{◌≡◌, ◌∷◌, [], chars, codes, map, option_map, IfOk};
ghost use Rattle.std.specs.Fmt.{signed_decimal};
ghost use Rattle.serde_json.specs.Written.{compact_text};
ghost use Rattle.arm_value.specs.Json.{bool};
ghost use Rattle.arm_value.specs.Reading.{data_of};
ghost use Rattle.arm_value.specs.View.{json};
ghost use Rattle.function_prints.specs.Printed as row;
ghost use Rattle.function_prints.specs.Printed.{printed};

use arm_value::{OutOfMemory, Text, Value};
use std::alloc::Global;

fn number_text(alloc: Global, number: i64) -> Result<Text, OutOfMemory>
    ensures { IfOk result (λ text. text ≡ signed_decimal number) }
{
    let text = format!(in alloc; "{number}")?;
    Ok(Text::from_string(text))
}

fn json_text(alloc: Global, value: &Value) -> Result<Text, OutOfMemory>
    ensures { IfOk result (λ text. text ≡ chars (compact_text (data_of (json value.now)))) }
{
    let bytes = value.to_json(alloc)?;
    match String::from_utf8(bytes.into_vec()) {
        Ok(text) => Ok(Text::from_string(text)),
        Err(_) => unreachable!(),
    }
}

#[tactic(auto, using(crate::proofs::TextLemmas::words))]
fn truth_text(alloc: Global, truth: bool) -> Result<Text, OutOfMemory>
    ensures { IfOk result (λ text. text ≡ printed (bool truth)) }
{
    if truth {
        let text = Text::of(alloc, "True")?;
        Ok(text)
    } else {
        let text = Text::of(alloc, "False")?;
        Ok(text)
    }
}

/// The printed form of the value.
#[tactic(auto, using(crate::proofs::TextLemmas::words))]
pub fn printed(alloc: Global, value: &Value) -> Result<Text, OutOfMemory>
    ensures { IfOk result (λ text. text ≡ printed (json value.now)) }
{
    match value {
        Value::Null => Ok(Text::from_string(String::new(alloc))),
        Value::Bool(truth) => truth_text(alloc, *truth),
        Value::Int(number) => number_text(alloc, *number),
        Value::Text(text) => text.copy(alloc),
        Value::Array(_) => json_text(alloc, value),
        Value::Object(_) => json_text(alloc, value),
    }
}

fn as_text(alloc: Global, value: &Value) -> Result<Option<Value>, OutOfMemory>
    ensures { IfOk result (λ text. option_map json text ≡ row.to_text (json value.now ∷ [])) }
{
    Ok(Some(Value::Text(printed(alloc, value)?)))
}

/// `string`: the printed form of the value.
pub fn to_text(alloc: Global, args: &[Value]) -> Result<Option<Value>, OutOfMemory>
    ensures { IfOk result (λ value. option_map json value ≡ row.to_text (map json args.now)) }
{
    match args {
        [value] => as_text(alloc, value),
        _ => Ok(None),
    }
}
