// The names of an object's members, and those that loops give it.

ghost use Rattle.std.specs.Prelude.{◌≡◌, IfOk, chars, option_map};
ghost use Rattle.arm_value.specs.Json.{keys, pairs};
ghost use Rattle.arm_value.specs.Look.{first_by, is_same_folded};
ghost use Rattle.arm_value.specs.View.{json};
ghost use Rattle.template_values.specs.Values.{text_in, loop_name, names_with};
ghost use Rattle.arm_expr.specs.Brackets.{is_copy};

use arm_value::{Fields, OutOfMemory, Text, Value};
use name_set::TextSet;
use std::alloc::Global;

/// Whether a member of this name makes loops.
pub fn is_copy(name: &Text) -> bool
    ensures { result ≡ is_copy name.now }
{
    name.as_str() == "copy"
}

/// The names of the members.
pub fn names_of(alloc: Global, fields: &Fields) -> Result<TextSet, OutOfMemory>
    ensures { IfOk result (λ names. names ≡ keys fields.now) }
{
    let mut names = TextSet::new(alloc);
    for field in fields.as_slice() {
        names = names.with(alloc, &field.name)?;
    }
    Ok(names)
}

// The value of the first member of the name, in letters of any case.
fn first_named<'a>(fields: &'a Fields, name: &str) -> Option<&'a Value>
    ensures { option_map (λ v. json v.now) result ≡ first_by (is_same_folded (chars name.now)) (pairs fields.now) }
{
    for field in fields.as_slice() {
        if field.name.equals_ignore_case(name) {
            return Some(&field.value);
        }
    }
    None
}

// The text that a value is.
fn text_in(value: Option<&Value>) -> Option<&Text>
    ensures { option_map (λ t. t.now) result ≡ text_in (option_map (λ v. json v.now) value.entry) }
{
    match value {
        Some(Value::Text(text)) => Some(text),
        _ => None,
    }
}

/// The name that a loop gives, where it is a text.
#[tactic(auto, using(crate::proofs::WordLemmas::words))]
pub fn loop_name(value: &Value) -> Option<&Text>
    ensures { option_map (λ t. t.now) result ≡ loop_name (json value.now) }
{
    match value {
        Value::Object(fields) => text_in(first_named(fields, "name")),
        _ => None,
    }
}

/// The names with that of a loop.
pub fn with_loop(alloc: Global, names: TextSet, value: &Value) -> Result<TextSet, OutOfMemory>
    ensures { IfOk result (λ ns. ns ≡ names_with names (loop_name (json value.now))) }
{
    match loop_name(value) {
        Some(name) => names.with(alloc, name),
        None => Ok(names),
    }
}
