//! Values of at most 120 levels.
ghost use Rattle.std.specs.Prelude.{◌≡◌, [], map, option_map, IfOk};
ghost use Rattle.arm_value.specs.Json.{object, pairs, put_each, IsInOrder};
ghost use Rattle.arm_value.specs.View.{json, member, entry};
ghost use Rattle.function_lists.specs.Values.{array_of, capped, object_of, or_null};

use crate::merge::in_object;
use arm_value::{Field, Items, OutOfMemory, Text, Value, deepest_item, deepest_member, sorted};
use std::alloc::Global;
use std::collections::BTreeMap;

/// The array of these items; none where it would nest above 120. It takes no memory.
#[tactic(auto, using(crate::proofs::ValueLemmas::is_array_of, crate::proofs::ValueLemmas::no_array_of))]
pub fn array_of(values: Vec<Value>) -> Option<Value>
    ensures { option_map json result ≡ array_of (map json values.items) }
{
    if deepest_item(values.as_slice()) > 119 {
        return None;
    }
    Some(Value::Array(Items::from_vec(values)))
}

// The members of values that are listed by their names.
fn in_order(alloc: Global, sorted: BTreeMap<String, Value>) -> Result<Vec<Field>, OutOfMemory>
    ensures { IfOk result (λ members. map member members.items ≡ map entry sorted.entries) }
{
    let mut members = Vec::new(alloc);
    for (name, value) in sorted {
        members.push(Field {
            name: Text::from_string(name),
            value,
        })?;
    }
    Ok(members)
}

// The object of members in the order of their names; none where it would nest above 120.
#[tactic(auto, using(crate::proofs::ValueLemmas::is_capped, crate::proofs::ValueLemmas::is_not_capped))]
fn capped_object(alloc: Global, members: Vec<Field>) -> Result<Option<Value>, OutOfMemory>
    requires { IsInOrder (map member members.items) }
    ensures { IfOk result (λ value. option_map json value ≡ capped (object (pairs (map member members.items)))) }
{
    if deepest_member(members.as_slice()) > 119 {
        return Ok(None);
    }
    let fields = in_object(alloc, members)?;
    Ok(Some(Value::Object(fields)))
}

/// The object of these members, of which a later one wins over an earlier one of its name; none
/// where it would nest above 120.
///
/// It takes time in the order of n log n for n members.
pub fn object_of(alloc: Global, members: Vec<Field>) -> Result<Option<Value>, OutOfMemory>
    ensures { IfOk result (λ value. option_map json value ≡ object_of (map member members.items)) }
{
    let sorted = sorted(alloc, members)?;
    let members = in_order(alloc, sorted)?;
    capped_object(alloc, members)
}

/// The same values again.
pub fn copies(alloc: Global, values: &[Value]) -> Result<Vec<Value>, OutOfMemory>
    ensures { IfOk result (λ copies. map json copies.items ≡ map json values.now) }
{
    let mut copies = Vec::new(alloc);
    for value in values {
        copies.push(value.copy(alloc)?)?;
    }
    Ok(copies)
}

/// The value again, null for none.
pub fn copy_or_null(alloc: Global, value: Option<&Value>) -> Result<Value, OutOfMemory>
    ensures { IfOk result (λ copy. json copy ≡ or_null (option_map (λ v. json v.now) value.entry)) }
{
    match value {
        Some(value) => value.copy(alloc),
        None => Ok(Value::Null),
    }
}
