// Sizes of texts, arrays and objects.
ghost use Rattle.std.specs.Prelude.{◌≡◌, ◌∷◌, [], chars, length, map, option_map};
ghost use Rattle.arm_value.specs.View.{json};
ghost use Rattle.function_lists.specs.Sizes as row;
ghost use Rattle.function_lists.specs.Sizes.{size_of, emptiness};
ghost use Rattle.function_numbers.specs.Numbers.{from_zero};

use arm_value::{Text, Value};

fn count(text: &str) -> usize
    ensures { result ≡ length (chars text.now) }
{
    text.chars().count()
}

#[tactic(auto, using(function_numbers::proofs::RowLemmas::rows_and_pairs))]
fn size_of(value: &Value) -> Option<usize>
    ensures { result ≡ size_of (json value.now) }
{
    match value {
        Value::Text(text) => Some(count(text.as_str())),
        Value::Array(items) => Some(items.len()),
        Value::Object(fields) => Some(fields.len()),
        _ => None,
    }
}

/// The number; none beyond 64 bits with a sign.
pub fn number_from(number: usize) -> Option<i64>
    ensures { result ≡ from_zero number }
{
    if number <= 0x7fff_ffff_ffff_ffff {
        Some(number as i64)
    } else {
        None
    }
}

fn sized(value: &Value) -> Option<Value>
    ensures { option_map json result ≡ row.size (json value.now ∷ []) }
{
    Some(Value::Int(number_from(size_of(value)?)?))
}

/// `length`: the number of characters of a text, items of an array or members of an object.
pub fn size(args: &[Value]) -> Option<Value>
    ensures { option_map json result ≡ row.size (map json args.now) }
{
    match args {
        [value] => sized(value),
        _ => None,
    }
}

fn emptiness(value: &Value) -> Option<bool>
    ensures { result ≡ emptiness (json value.now) }
{
    match value {
        Value::Null => Some(true),
        _ => Some(size_of(value)? == 0),
    }
}

fn as_emptiness(value: &Value) -> Option<Value>
    ensures { option_map json result ≡ row.empty (json value.now ∷ []) }
{
    Some(Value::Bool(emptiness(value)?))
}

/// `empty`: whether a text, an array or an object has no part; null is empty.
pub fn empty(args: &[Value]) -> Option<Value>
    ensures { option_map json result ≡ row.empty (map json args.now) }
{
    match args {
        [value] => as_emptiness(value),
        _ => None,
    }
}
