// The words for types.

ghost use Rattle.std.specs.Prelude.{◌≡◌, chars};
ghost use Rattle.arm_value.specs.View.{json};
ghost use Rattle.template_members.specs.Parameters.{text_type, object_type, other_type, first_type, type_named};
ghost use Rattle.template_members.specs.Parameters.{kind_fault, int_fault};

use arm_value::{Text, Value};
use std::alloc::Global;
use template_parts::{TemplateFault, ValueType};
use template_values::order::wrong_form;

// The type of text of this word.
#[tactic(auto, using(crate::proofs::WordLemmas::words))]
fn text_type(word: &Text) -> Option<ValueType>
    ensures { result ≡ text_type word.now }
{
    if word.equals_ignore_case("string") {
        return Some(ValueType::String);
    }
    if word.equals_ignore_case("securestring") {
        return Some(ValueType::SecureString);
    }
    None
}

// The type of objects of this word.
#[tactic(auto, using(crate::proofs::WordLemmas::words))]
fn object_type(word: &Text) -> Option<ValueType>
    ensures { result ≡ object_type word.now }
{
    if word.equals_ignore_case("object") {
        return Some(ValueType::Object);
    }
    if word.equals_ignore_case("secureObject") {
        return Some(ValueType::SecureObject);
    }
    None
}

// The other type of this word.
#[tactic(auto, using(crate::proofs::WordLemmas::words))]
fn other_type(word: &Text) -> Option<ValueType>
    ensures { result ≡ other_type word.now }
{
    if word.equals_ignore_case("int") {
        return Some(ValueType::Int);
    }
    if word.equals_ignore_case("bool") {
        return Some(ValueType::Bool);
    }
    if word.equals_ignore_case("array") {
        return Some(ValueType::Array);
    }
    None
}

// The first of two types.
fn first_type(first: Option<ValueType>, second: Option<ValueType>) -> Option<ValueType>
    ensures { result ≡ first_type first second }
{
    match first {
        Some(kind) => Some(kind),
        None => second,
    }
}

/// The type of this word, in letters of any case.
pub fn type_named(word: &Text) -> Option<ValueType>
    ensures { result ≡ type_named word.now }
{
    first_type(
        text_type(word),
        first_type(object_type(word), other_type(word)),
    )
}

/// Why a value is refused that must be the word for a type.
pub fn kind_fault(alloc: Global, value: &Value) -> Option<TemplateFault>
    ensures { result ≡ kind_fault (json value.now) }
{
    let Value::Text(word) = value else {
        return Some(wrong_form(alloc));
    };
    match type_named(word) {
        Some(_) => None,
        None => Some(wrong_form(alloc)),
    }
}

/// Why a value is refused that must be a number.
pub fn int_fault(alloc: Global, value: &Value) -> Option<TemplateFault>
    ensures { result ≡ int_fault (json value.now) }
{
    match value {
        Value::Int(_) => None,
        _ => Some(wrong_form(alloc)),
    }
}
