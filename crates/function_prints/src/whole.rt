// The numbers of a value are of signed 64 bits. The functions here compute nothing: their clauses say
// of a value what its type says of each number.
ghost use Rattle.std.specs.Prelude.{◌≡◌, ℕ, None};
ghost use Rattle.serde_json.specs.Data.{number as number_data};
ghost use Rattle.serde_json.specs.Find.{of_integer};
ghost use Rattle.arm_value.specs.Json.{row, pairs};
ghost use Rattle.arm_value.specs.View.{json};
ghost use Rattle.arm_value.specs.Reading.{data_of, row_data, pairs_data};
ghost use Rattle.arm_value.specs.Reading.{not_whole, items_not_whole, members_not_whole};

use arm_value::{Fields, Items, Value};

fn is_whole(number: i64)
    ensures { not_whole (number_data (of_integer number)) ≡ None }
{
    let _number = number;
}

/// All numbers of the value are whole ones of signed 64 bits.
#[cycle(whole)]
pub fn has_whole_numbers(value: &Value)
    ensures { not_whole (data_of (json value.now)) ≡ None }
{
    match value {
        Value::Int(number) => is_whole(*number),
        Value::Array(items) => items_are_whole(items),
        Value::Object(fields) => fields_are_whole(fields),
        _ => {}
    }
}

#[cycle(whole)]
fn items_are_whole(items: &Items)
    ensures { (i : ℕ) → items_not_whole i (row_data (row items.now)) ≡ None }
{
    for item in items.as_slice() {
        has_whole_numbers(item);
    }
}

#[cycle(whole)]
fn fields_are_whole(fields: &Fields)
    ensures { members_not_whole (pairs_data (pairs fields.now)) ≡ None }
{
    for field in fields.as_slice() {
        has_whole_numbers(&field.value);
    }
}
