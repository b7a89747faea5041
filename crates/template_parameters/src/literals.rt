// The values of trees without expressions and loops.

ghost use Rattle.std.specs.Prelude.{◌≡◌, IfOk, chars, codes, bytes_eq, option_map};
ghost use Rattle.arm_value.specs.View.{json};
ghost use Rattle.arm_value.specs.Json.{text, array, object, row, pairs};
ghost use Rattle.template_parameters.specs.Literal.{literal_text, literal, row_literal, pairs_literal};
ghost use Rattle.arm_expr.specs.Brackets.{is_copy};

use crate::parts::{nothing, with_item, with_member};
use arm_expr::{Meaning, meaning_of};
use arm_value::{Fields, Items, OutOfMemory, Text, Value};
use std::alloc::Global;
use template_parts::run_out;

// Whether the name is `copy`.
fn is_copy(name: &Text) -> bool
    ensures { result ≡ is_copy name.now }
{
    name.as_str() == "copy"
}

// The text that a text of a template is, and none where it is an expression.
fn literal_text(alloc: Global, text: &Text) -> Result<Option<Text>, OutOfMemory>
    ensures { IfOk result (λ t. t ≡ literal_text text.now) }
{
    match meaning_of(text.as_str()) {
        Meaning::Plain(plain) => Ok(Some(Text::of(alloc, plain)?)),
        Meaning::Expression => Ok(None),
    }
}

// The text as a value, where there is one.
fn text_value(found: Option<Text>) -> Option<Value>
    ensures { option_map json result ≡ option_map (λ t. text t) found }
{
    match found {
        Some(text) => Some(Value::Text(text)),
        None => None,
    }
}

// The array of the items, where there are any.
fn array_value(found: Option<Items>) -> Option<Value>
    ensures { option_map json result ≡ option_map (λ r. array r) (option_map row found) }
{
    match found {
        Some(items) => Some(Value::Array(items)),
        None => None,
    }
}

// The object of the members, where there are any.
fn object_value(found: Option<Fields>) -> Option<Value>
    ensures { option_map json result ≡ option_map (λ ps. object ps) (option_map pairs found) }
{
    match found {
        Some(members) => Some(Value::Object(members)),
        None => None,
    }
}

/// The value that a tree has which reads nothing: one without an expression, and without a member `copy`, which makes
/// a loop. None for any other tree.
#[cycle(literal)]
pub fn literal(alloc: Global, value: &Value) -> Result<Option<Value>, OutOfMemory>
    ensures { IfOk result (λ o. option_map json o ≡ literal (json value.now)) }
{
    match value {
        Value::Null => Ok(Some(Value::Null)),
        Value::Bool(b) => Ok(Some(Value::Bool(*b))),
        Value::Int(n) => Ok(Some(Value::Int(*n))),
        Value::Text(text) => Ok(text_value(literal_text(alloc, text)?)),
        Value::Array(items) => Ok(array_value(items_literal(alloc, items)?)),
        Value::Object(fields) => Ok(object_value(fields_literal(alloc, fields)?)),
    }
}

// The values of the items.
#[cycle(literal)]
fn items_literal(alloc: Global, items: &Items) -> Result<Option<Items>, OutOfMemory>
    ensures { IfOk result (λ o. option_map row o ≡ row_literal (row items.now)) }
{
    let mut found = Items::new();
    for item in items.as_slice() {
        match literal(alloc, item) {
            Ok(Some(value)) => found = with_item(alloc, found, value)?,
            Ok(None) => return nothing(found),
            Err(_) => return run_out(found),
        }
    }
    Ok(Some(found))
}

// The members with the values of their trees.
#[cycle(literal)]
fn fields_literal(alloc: Global, fields: &Fields) -> Result<Option<Fields>, OutOfMemory>
    ensures { IfOk result (λ o. option_map pairs o ≡ pairs_literal (pairs fields.now)) }
{
    let mut found = Fields::new();
    for field in fields.as_slice() {
        if is_copy(&field.name) {
            return nothing(found);
        }
        match literal(alloc, &field.value) {
            Ok(Some(value)) => found = with_member(alloc, found, &field.name, value)?,
            Ok(None) => return nothing(found),
            Err(_) => return run_out(found),
        }
    }
    Ok(Some(found))
}
