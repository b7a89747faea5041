// The rule of a parameter: its type, the values that are allowed, and its bounds.

ghost use Rattle.std.specs.Prelude.{◌≡◌, pos, length, chars, int_le};
ghost use Rattle.arm_value.specs.View.{json};
ghost use Rattle.arm_value.specs.Json.{row};
ghost use Rattle.template_parameters.specs.Rule.{is_listed, row_is_listed, are_listed, is_allowed, is_typed};
ghost use Rattle.template_parameters.specs.Rule.{is_at_least, is_at_most, is_between, is_within, breach};

use crate::kinds::is_of;
use arm_value::{Items, Text, Value};
use foundation::limits::MAX_VALUE_NESTING;
use template_parts::{Bounds, Parameter};

/// What of a parameter's rule a value breaks, the first of these.
#[derive(Clone, Copy, Debug, PartialEq, Eq)]
pub enum Breach {
    /// The value is of another type, or nests above 100.
    WrongType,
    /// The value is not among those that are allowed.
    NotAllowed,
    /// The value, or its length, is beyond a bound.
    OutOfBounds,
}

// Whether the value is one of these.
fn is_listed(values: &Items, value: &Value) -> bool
    ensures { result ≡ is_listed values.now (json value.now) }
{
    for other in values.as_slice() {
        if other.same(value) {
            return true;
        }
    }
    false
}

// Whether each of the items is one of these.
fn row_is_listed(values: &Items, items: &Items) -> bool
    ensures { result ≡ row_is_listed values.now (row items.now) }
{
    for item in items.as_slice() {
        if !is_listed(values, item) {
            return false;
        }
    }
    true
}

// Whether the value is an array of these.
fn are_listed(values: &Items, value: &Value) -> bool
    ensures { result ≡ are_listed values.now (json value.now) }
{
    match value {
        Value::Array(items) => row_is_listed(values, items),
        _ => false,
    }
}

// Whether the value is allowed.
fn is_allowed(allowed: &Option<Items>, value: &Value) -> bool
    ensures { result ≡ is_allowed allowed.now (json value.now) }
{
    match allowed {
        Some(values) => is_listed(values, value) || are_listed(values, value),
        None => true,
    }
}

// Whether the value is of the parameter's type and does not nest too deep.
fn is_typed(parameter: &Parameter, value: &Value) -> bool
    ensures { result ≡ is_typed parameter.now (json value.now) }
{
    is_of(parameter.kind, value) && value.nesting() <= MAX_VALUE_NESTING
}

// Whether the number is at least this one, where there is one.
fn is_at_least(least: Option<i64>, number: i64) -> bool
    ensures { result ≡ is_at_least least number }
{
    match least {
        Some(least) => least <= number,
        None => true,
    }
}

// Whether the number is at most this one, where there is one.
fn is_at_most(most: Option<i64>, number: i64) -> bool
    ensures { result ≡ is_at_most most number }
{
    match most {
        Some(most) => number <= most,
        None => true,
    }
}

// Whether the length is at least this one.
fn is_as_long(least: i64, length: usize) -> bool
    ensures { result ≡ int_le least (pos length) }
{
    if least < 0 {
        true
    } else {
        least as u64 <= length as u64
    }
}

// Whether the length is at most this one.
fn is_as_short(most: i64, length: usize) -> bool
    ensures { result ≡ int_le (pos length) most }
{
    if most < 0 {
        false
    } else {
        length as u64 <= most as u64
    }
}

// Whether the length is within the bounds.
fn has_length(bounds: Bounds, length: usize) -> bool
    ensures { result ≡ is_between bounds.min_length bounds.max_length (pos length) }
{
    let is_long_enough = match bounds.min_length {
        Some(least) => is_as_long(least, length),
        None => true,
    };
    let is_short_enough = match bounds.max_length {
        Some(most) => is_as_short(most, length),
        None => true,
    };
    is_long_enough && is_short_enough
}

fn count(text: &str) -> usize
    ensures { result ≡ length (chars text.now) }
{
    text.chars().count()
}

// The number of characters.
fn characters(text: &Text) -> usize
    ensures { result ≡ length text.now }
{
    count(text.as_str())
}

// Whether the value, or its length, is within the bounds.
#[tactic(auto, using(arm_value::proofs::JsonLemmas::row_length_row))]
fn is_within(bounds: Bounds, value: &Value) -> bool
    ensures { result ≡ is_within bounds (json value.now) }
{
    match value {
        Value::Int(number) => {
            is_at_least(bounds.min_value, *number) && is_at_most(bounds.max_value, *number)
        }
        Value::Text(text) => has_length(bounds, characters(text)),
        Value::Array(items) => has_length(bounds, items.len()),
        _ => true,
    }
}

/// What of the parameter's rule the value breaks; none where it keeps the rule. It takes no memory.
///
/// The rule: the value is of the type and nests at most 100 deep; it is one of the allowed values, or an array of such;
/// a number is within `minValue` and `maxValue`, and the length of a text (in characters) or of an array is within
/// `minLength` and `maxLength`.
pub fn first_breach(parameter: &Parameter, value: &Value) -> Option<Breach>
    ensures { result ≡ breach parameter.now (json value.now) }
{
    if !is_typed(parameter, value) {
        return Some(Breach::WrongType);
    }
    if !is_allowed(&parameter.allowed_values, value) {
        return Some(Breach::NotAllowed);
    }
    if !is_within(parameter.bounds, value) {
        return Some(Breach::OutOfBounds);
    }
    None
}
