// Values without expressions.

ghost use Rattle.std.specs.Prelude.{◌≡◌, IfOk, chars};
ghost use Rattle.arm_value.specs.Json.{row, pairs};
ghost use Rattle.arm_value.specs.View.{json};
ghost use Rattle.template_members.specs.Parameters.{plain_text_fault, plain_fault, row_plain_fault, pairs_plain_fault};
ghost use Rattle.template_members.specs.Parameters.{allowed_fault};

use arm_expr::{Meaning, meaning_of};
use arm_value::{Fields, Items, OutOfMemory, Text, Value};
use std::alloc::Global;
use template_parts::TemplateFault;
use template_values::order::{at_item, at_member, wrong_form};

// Why a text is refused that must be no expression.
fn plain_text_fault(alloc: Global, text: &Text) -> Option<TemplateFault>
    ensures { result ≡ plain_text_fault text.now }
{
    match meaning_of(text.as_str()) {
        Meaning::Plain(_) => None,
        Meaning::Expression => Some(wrong_form(alloc)),
    }
}

// Why a value is refused that must have no expression in it.
#[cycle(plain)]
fn plain_fault(alloc: Global, value: &Value) -> Result<Option<TemplateFault>, OutOfMemory>
    ensures { IfOk result (λ f. f ≡ plain_fault (json value.now)) }
{
    match value {
        Value::Null => Ok(None),
        Value::Bool(_) => Ok(None),
        Value::Int(_) => Ok(None),
        Value::Text(text) => Ok(plain_text_fault(alloc, text)),
        Value::Array(items) => items_plain_fault(alloc, items),
        Value::Object(fields) => fields_plain_fault(alloc, fields),
    }
}

#[cycle(plain)]
fn items_plain_fault(alloc: Global, items: &Items) -> Result<Option<TemplateFault>, OutOfMemory>
    ensures { IfOk result (λ f. f ≡ row_plain_fault 0 (row items.now)) }
{
    for (i, item) in items.as_slice().iter().enumerate() {
        if let Some(fault) = plain_fault(alloc, item)? {
            return Ok(Some(at_item(alloc, i, fault)?));
        }
    }
    Ok(None)
}

#[cycle(plain)]
fn fields_plain_fault(alloc: Global, fields: &Fields) -> Result<Option<TemplateFault>, OutOfMemory>
    ensures { IfOk result (λ f. f ≡ pairs_plain_fault (pairs fields.now)) }
{
    for field in fields.as_slice() {
        if let Some(fault) = plain_fault(alloc, &field.value)? {
            return Ok(Some(at_member(alloc, &field.name, fault)?));
        }
    }
    Ok(None)
}

/// Why a value is refused that must be an array of allowed values.
pub fn allowed_fault(alloc: Global, value: &Value) -> Result<Option<TemplateFault>, OutOfMemory>
    ensures { IfOk result (λ f. f ≡ allowed_fault (json value.now)) }
{
    match value {
        Value::Array(items) => items_plain_fault(alloc, items),
        _ => Ok(Some(wrong_form(alloc))),
    }
}
