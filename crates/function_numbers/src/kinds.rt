//! What kind of value an argument is.
ghost use Rattle.std.specs.Prelude.{◌≡◌, option_map};
ghost use Rattle.arm_value.specs.View.{json};
ghost use Rattle.function_numbers.specs.Kinds.{number_of, text_of, truth_of, items_of, members_of};

use arm_value::{Fields, Items, Text, Value};

/// The number that the value is.
pub fn number_of(value: &Value) -> Option<i64>
    ensures { result ≡ number_of (json value.now) }
{
    match value {
        Value::Int(number) => Some(*number),
        _ => None,
    }
}

/// The text that the value is.
pub fn text_of(value: &Value) -> Option<&Text>
    ensures { option_map (λ t. t.now) result ≡ text_of (json value.now) }
{
    match value {
        Value::Text(text) => Some(text),
        _ => None,
    }
}

/// The truth value that the value is.
pub fn truth_of(value: &Value) -> Option<bool>
    ensures { result ≡ truth_of (json value.now) }
{
    match value {
        Value::Bool(truth) => Some(*truth),
        _ => None,
    }
}

/// The items, where the value is an array.
#[tactic(auto, using(crate::proofs::RowLemmas::items_of_row))]
pub fn items_of(value: &Value) -> Option<&Items>
    ensures { option_map (λ i. i.now) result ≡ items_of (json value.now) }
{
    match value {
        Value::Array(items) => Some(items),
        _ => None,
    }
}

/// The members, where the value is an object.
#[tactic(auto, using(crate::proofs::RowLemmas::members_of_pairs))]
pub fn members_of(value: &Value) -> Option<&Fields>
    ensures { option_map (λ f. f.now) result ≡ members_of (json value.now) }
{
    match value {
        Value::Object(fields) => Some(fields),
        _ => None,
    }
}
