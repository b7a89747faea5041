// Truth values.
ghost use Rattle.std.specs.Prelude.{◌≡◌, ◌∷◌, [], map, option_map};
ghost use Rattle.arm_value.specs.View.{json};
ghost use Rattle.function_numbers.specs.Logic as row;
ghost use Rattle.function_numbers.specs.Logic.{truth, truth_named};

use crate::kinds::truth_of;
use arm_value::{Text, Value};

fn opposite(value: &Value) -> Option<Value>
    ensures { option_map json result ≡ row.not (json value.now ∷ []) }
{
    Some(Value::Bool(!truth_of(value)?))
}

/// `not`: the other truth value.
pub fn not(args: &[Value]) -> Option<Value>
    ensures { option_map json result ≡ row.not (map json args.now) }
{
    match args {
        [value] => opposite(value),
        _ => None,
    }
}

/// `true`, without arguments.
pub fn always_true(args: &[Value]) -> Option<Value>
    ensures { option_map json result ≡ row.always_true (map json args.now) }
{
    match args {
        [] => Some(Value::Bool(true)),
        _ => None,
    }
}

/// `false`, without arguments.
pub fn always_false(args: &[Value]) -> Option<Value>
    ensures { option_map json result ≡ row.always_false (map json args.now) }
{
    match args {
        [] => Some(Value::Bool(false)),
        _ => None,
    }
}

/// `null`, without arguments.
pub fn always_null(args: &[Value]) -> Option<Value>
    ensures { option_map json result ≡ row.always_null (map json args.now) }
{
    match args {
        [] => Some(Value::Null),
        _ => None,
    }
}

#[tactic(auto, using(crate::proofs::WordLemmas::chars_true, crate::proofs::WordLemmas::chars_false))]
fn truth_named(text: &Text) -> Option<bool>
    ensures { result ≡ truth_named text.now }
{
    if text.equals_ignore_case("true") {
        Some(true)
    } else if text.equals_ignore_case("false") {
        Some(false)
    } else {
        None
    }
}

fn truth(value: &Value) -> Option<bool>
    ensures { result ≡ truth (json value.now) }
{
    match value {
        Value::Bool(truth) => Some(*truth),
        Value::Int(number) => Some(*number != 0),
        Value::Text(text) => truth_named(text),
        _ => None,
    }
}

fn as_truth(value: &Value) -> Option<Value>
    ensures { option_map json result ≡ row.to_bool (json value.now ∷ []) }
{
    Some(Value::Bool(truth(value)?))
}

/// `bool`: a truth value itself, whether a number is other than 0, or what `true` and `false` name,
/// whatever the case of their letters.
pub fn to_bool(args: &[Value]) -> Option<Value>
    ensures { option_map json result ≡ row.to_bool (map json args.now) }
{
    match args {
        [value] => as_truth(value),
        _ => None,
    }
}
