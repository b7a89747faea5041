// Values with each text changed.

ghost use Rattle.std.specs.Prelude.{◌≡◌, ◌≤◌, ◌++◌, ◌∷◌, [], map, IfOk};
ghost use Rattle.arm_value.specs.Json.{nesting, IsInOrder};
ghost use Rattle.arm_value.specs.View.{json};
ghost use Rattle.plain_values.specs.Plain.{meant_text, changed, each_text, member_texts};

use arm_expr::{Meaning, escaped, meaning_of};
use arm_value::{Fields, Items, OutOfMemory, Text, Value};
use std::alloc::Global;
use template_parts::run_out;

/// How each text of a value is changed.
#[derive(Clone, Copy)]
pub enum Change {
    /// A text of a template becomes the text that it is.
    Meant,
    /// A text becomes what a template writes for it.
    Written,
}

// The text that a text of a template is; an expression is itself.
fn meant_text(alloc: Global, text: &Text) -> Result<Text, OutOfMemory>
    ensures { IfOk result (λ t. t ≡ meant_text text.now) }
{
    match meaning_of(text.as_str()) {
        Meaning::Plain(plain) => Text::of(alloc, plain),
        Meaning::Expression => text.copy(alloc),
    }
}

// The text with the change.
fn changed(alloc: Global, change: Change, text: &Text) -> Result<Text, OutOfMemory>
    ensures { IfOk result (λ t. t ≡ changed change text.now) }
{
    match change {
        Change::Meant => meant_text(alloc, text),
        Change::Written => escaped(alloc, text),
    }
}

// The items with one more at their end.
fn with_item(alloc: Global, mut items: Items, value: Value) -> Result<Items, OutOfMemory>
    requires { nesting (json value) ≤ 119 }
    ensures { IfOk result (λ js. js ≡ items ++ json value ∷ []) }
{
    match items.push(alloc, value) {
        Ok(()) => Ok(items),
        Err(_) => run_out(items),
    }
}

// The members with one more, whose name comes after all the others.
fn put_last(
    alloc: Global,
    mut members: Fields,
    name: Text,
    value: Value,
) -> Result<Fields, OutOfMemory>
    requires nests { nesting (json value) ≤ 119 }
    requires last { IsInOrder (members ++ (name, json value) ∷ []) }
    ensures { IfOk result (λ ms. ms ≡ members ++ (name, json value) ∷ []) }
{
    match members.push_last(alloc, name, value) {
        Ok(()) => Ok(members),
        Err(_) => run_out(members),
    }
}

// The members with one more, whose name comes after all the others.
fn with_member(
    alloc: Global,
    members: Fields,
    name: &Text,
    value: Value,
) -> Result<Fields, OutOfMemory>
    requires nests { nesting (json value) ≤ 119 }
    requires last { IsInOrder (members ++ (name.now, json value) ∷ []) }
    ensures { IfOk result (λ ms. ms ≡ members ++ (name.now, json value) ∷ []) }
{
    match name.copy(alloc) {
        Ok(name) => put_last(alloc, members, name, value),
        Err(_) => run_out((members, value)),
    }
}

/// The value with each text changed.
#[cycle(texts)]
pub fn each_text(alloc: Global, change: Change, value: &Value) -> Result<Value, OutOfMemory>
    ensures { IfOk result (λ v. json v ≡ each_text (changed change) (json value.now)) }
{
    match value {
        Value::Null => Ok(Value::Null),
        Value::Bool(b) => Ok(Value::Bool(*b)),
        Value::Int(n) => Ok(Value::Int(*n)),
        Value::Text(text) => Ok(Value::Text(changed(alloc, change, text)?)),
        Value::Array(items) => Ok(Value::Array(items_texts(alloc, change, items)?)),
        Value::Object(fields) => Ok(Value::Object(fields_texts(alloc, change, fields)?)),
    }
}

/// The items, each with its texts changed.
#[cycle(texts)]
pub fn items_texts(alloc: Global, change: Change, items: &Items) -> Result<Items, OutOfMemory>
    ensures { IfOk result (λ js. js ≡ map (each_text (changed change)) items.now) }
{
    let mut made = Items::new();
    for item in items.as_slice() {
        match each_text(alloc, change, item) {
            Ok(value) => made = with_item(alloc, made, value)?,
            Err(_) => return run_out(made),
        }
    }
    Ok(made)
}

// The members, each with its texts changed.
#[cycle(texts)]
fn fields_texts(alloc: Global, change: Change, fields: &Fields) -> Result<Fields, OutOfMemory>
    ensures { IfOk result (λ ms. ms ≡ map (member_texts (changed change)) fields.now) }
{
    let mut made = Fields::new();
    for field in fields.as_slice() {
        match each_text(alloc, change, &field.value) {
            Ok(value) => made = with_member(alloc, made, &field.name, value)?,
            Err(_) => return run_out(made),
        }
    }
    Ok(made)
}
