// A walk over a value.

ghost use Rattle.arm_value.specs.Json.{row, pairs};
ghost use Rattle.arm_value.specs.View.{json};
ghost use Rattle.read_backs.specs.Characters.{HasCharacters, IsText, RowHasCharacters, PairsHaveCharacters};

use arm_value::{Fields, Items, Text, Value};

// The characters of a text are those that its bytes spell.
fn know_text(text: &Text)
    ensures { IsText text.now }
{
    text.as_str();
}

/// Looks at all texts of the value, so that it is known that they have characters alone. Nothing is changed.
#[cycle(characters)]
pub fn know_characters(value: &Value)
    ensures { HasCharacters (json value.now) }
{
    match value {
        Value::Null => {}
        Value::Bool(_) => {}
        Value::Int(_) => {}
        Value::Text(text) => know_text(text),
        Value::Array(items) => know_items(items),
        Value::Object(fields) => know_fields(fields),
    }
}

// The same of items.
#[cycle(characters)]
fn know_items(items: &Items)
    ensures { RowHasCharacters (row items.now) }
{
    for item in items.as_slice() {
        know_characters(item);
    }
}

// The same of members.
#[cycle(characters)]
fn know_fields(fields: &Fields)
    ensures { PairsHaveCharacters (pairs fields.now) }
{
    for field in fields.as_slice() {
        know_text(&field.name);
        know_characters(&field.value);
    }
}
