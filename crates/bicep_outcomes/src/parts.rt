//! Texts, objects and arrays of the values of their parts.
ghost use Rattle.std.specs.Prelude.{◌≡◌, ◌++◌, ◌≤◌, chars, string_bytes, map, Some, IfOk, OnOk, IfErr};
ghost use Rattle.arm_value.specs.Json.{Json, text, items_nesting, members_nesting};
ghost use Rattle.arm_value.specs.View.{json, member};
ghost use Rattle.arm_env.specs.Object.{object_of};
ghost use Rattle.function_prints.specs.Printed.{printed};
ghost use Rattle.bicep_meaning.specs.Rows.{array_of};
ghost use Rattle.bicep_meaning.specs.Meaning.{joined};
ghost use Rattle.bicep_outcomes.specs.Outcomes.{IsFound, Then, all_json, all_members, all_texts};
ghost use Rattle.bicep_outcomes.specs.Outcomes.{ThenItems, ThenMembers};

use crate::joins::{found, stopped};
use crate::stop::Stop;
use arm_env::stop::let_go;
use arm_value::{Field, Fields, OutOfMemory, Text, Texts, Value, deepest_member};
use foundation::limits::MAX_JSON_NESTING;
use function_lists::values::array_of;
use function_prints::printed::printed;
use std::alloc::Global;

// The characters of the text after those of the string.
fn push(out: &mut String, text: &Text) -> Result<(), OutOfMemory>
    ensures { OnOk result (chars (string_bytes out.new) ≡ chars (string_bytes out.old) ++ text.now) }
{
    out.push_str(text.as_str())?;
    Ok(())
}

fn printed_before(alloc: Global, value: &Value, after: &Text) -> Result<Text, OutOfMemory>
    ensures { IfOk result (λ t. t ≡ printed (json value.now) ++ after.now) }
{
    let mut out = printed(alloc, value)?.into_string();
    push(&mut out, after)?;
    Ok(Text::from_string(out))
}

/// The printed form of the value, and the characters after it.
pub fn hole(alloc: Global, value: Result<Value, Stop>, after: &Text) -> Result<Text, Stop>
    ensures { Then json (λ t. t) (λ j. Some (printed j ++ after.now)) value result }
{
    match value {
        Ok(value) => {
            let text = printed_before(alloc, &value, after);
            let_go(value);
            Ok(text?)
        }
        Err(stop) => Err(stop),
    }
}

fn joined(alloc: Global, first: &Text, holes: &[Text]) -> Result<Text, OutOfMemory>
    ensures { IfOk result (λ t. t ≡ first.now ++ joined holes.now) }
{
    let mut out = first.copy(alloc)?.into_string();
    for text in holes {
        push(&mut out, text)?;
    }
    Ok(Text::from_string(out))
}

/// The text of these characters and what is in its holes.
pub fn interpolated(
    alloc: Global,
    first: &Text,
    holes: Result<Vec<Text>, Stop>,
) -> Result<Value, Stop>
    ensures { Then all_texts json (λ ts. Some (text (first.now ++ joined ts))) holes result }
{
    match holes {
        Ok(holes) => {
            let text = joined(alloc, first, holes.as_slice());
            let_go(holes);
            Ok(Value::Text(text?))
        }
        Err(stop) => Err(stop),
    }
}

fn with_name(alloc: Global, name: &Text, value: Value) -> Result<Field, Stop>
    ensures { IsFound member (Some (name.now, json value)) result }
{
    match name.copy(alloc) {
        Ok(name) => Ok(Field { name, value }),
        Err(_) => stopped(Stop::OutOfMemory, value),
    }
}

/// The member of a name and a value.
pub fn member(alloc: Global, name: &Text, value: Result<Value, Stop>) -> Result<Field, Stop>
    ensures { Then json member (λ j. Some (name.now, j)) value result }
{
    match value {
        Ok(value) => with_name(alloc, name, value),
        Err(stop) => Err(stop),
    }
}

fn object_of(alloc: Global, members: Vec<Field>) -> Result<Value, Stop>
    ensures { members_nesting (all_members members) ≤ 119
        → IsFound json (Some (object_of (all_members members))) result }
{
    if deepest_member(members.as_slice()) < MAX_JSON_NESTING {
        Ok(Value::Object(Fields::from_members(alloc, members)?))
    } else {
        stopped(Stop::NoValue, members)
    }
}

/// The object of these members, which nest at most 119 deep; of equal names the last counts.
pub fn object(alloc: Global, members: Result<Vec<Field>, Stop>) -> Result<Value, Stop>
    ensures { ThenMembers members result }
{
    match members {
        Ok(members) => object_of(alloc, members),
        Err(stop) => Err(stop),
    }
}

/// The array of these values, which nest at most 119 deep.
pub fn array(values: Result<Vec<Value>, Stop>) -> Result<Value, Stop>
    ensures { ThenItems values result }
{
    match values {
        Ok(values) => found(array_of(values)),
        Err(stop) => Err(stop),
    }
}
