// The members of objects, and parts of values.
ghost use Rattle.std.specs.Prelude.{◌≡◌, ◌≤◌, ◌++◌, ◌∷◌, [], Some, None, List, Option, chars, bytes_eq, map};
ghost use Rattle.std.specs.Prelude.{option_map, option_and_then, IfOk, OnOk, slice_get, codes};
ghost use Rattle.std.specs.List.{list_all, list_any, filter};
ghost use Rattle.arm_value.specs.Json.{Json, Member, text, nesting, members_nesting, put};
ghost use Rattle.arm_value.specs.View.{json, member};
ghost use Rattle.function_lists.specs.Values.{array_of, object_of};
ghost use Rattle.function_numbers.specs.Kinds.{text_of};
ghost use Rattle.function_lists.specs.Members as row;
ghost use Rattle.function_lists.specs.Members.{key_and_value, paired, has_key};

use crate::values::{array_of, object_of};
use arm_value::{Field, Fields, OutOfMemory, Text, Value};
use function_numbers::kinds::{members_of, text_of};
use std::alloc::Global;

fn keys(alloc: Global, fields: &[Field]) -> Result<Vec<Value>, OutOfMemory>
    ensures { IfOk result (λ keys. map json keys.items ≡ map (λ m. text m.0) (map member fields.now)) }
{
    let mut keys = Vec::new(alloc);
    for field in fields {
        keys.push(Value::Text(field.name.copy(alloc)?))?;
    }
    Ok(keys)
}

fn keys_of(alloc: Global, value: &Value) -> Result<Option<Value>, OutOfMemory>
    ensures { IfOk result (λ keys. option_map json keys ≡ row.object_keys (json value.now ∷ [])) }
{
    match members_of(value) {
        Some(fields) => Ok(array_of(keys(alloc, fields.as_slice())?)),
        None => Ok(None),
    }
}

/// `objectKeys`: the names of an object's members, in the order of their bytes.
pub fn object_keys(alloc: Global, args: &[Value]) -> Result<Option<Value>, OutOfMemory>
    ensures { IfOk result (λ value. option_map json value ≡ row.object_keys (map json args.now)) }
{
    match args {
        [value] => keys_of(alloc, value),
        _ => Ok(None),
    }
}

// Puts the member's name among the parts, as `key`.
fn set_key(alloc: Global, parts: &mut Fields, field: &Field) -> Result<(), OutOfMemory>
    ensures { OnOk result (parts.new ≡ put (codes "key") (text field.now.name) parts.old) }
{
    let name = field.name.copy(alloc)?;
    parts.set(alloc, "key", Value::Text(name))?;
    Ok(())
}

// Puts the member's value among the parts, as `value`.
fn set_value(alloc: Global, parts: &mut Fields, field: &Field) -> Result<(), OutOfMemory>
    requires { nesting (json field.now.value) ≤ 119 }
    ensures { OnOk result (parts.new ≡ put (codes "value") (json field.now.value) parts.old) }
{
    let value = field.value.copy(alloc)?;
    parts.set(alloc, "value", value)?;
    Ok(())
}

// The object of a member's name and value.
fn key_and_value(alloc: Global, field: &Field) -> Result<Value, OutOfMemory>
    requires { nesting (json field.now.value) ≤ 119 }
    ensures { IfOk result (λ value. json value ≡ key_and_value (member field.now)) }
{
    let mut parts = Fields::new();
    set_key(alloc, &mut parts, field)?;
    set_value(alloc, &mut parts, field)?;
    Ok(Value::Object(parts))
}

fn keys_and_values(alloc: Global, fields: &[Field]) -> Result<Vec<Value>, OutOfMemory>
    requires { members_nesting (map member fields.now) ≤ 119 }
    ensures { IfOk result (λ all. map json all.items ≡ map key_and_value (map member fields.now)) }
{
    let mut all = Vec::new(alloc);
    for field in fields {
        all.push(key_and_value(alloc, field)?)?;
    }
    Ok(all)
}

fn items_in(alloc: Global, value: &Value) -> Result<Option<Value>, OutOfMemory>
    ensures { IfOk result (λ items. option_map json items ≡ row.object_items (json value.now ∷ [])) }
{
    match members_of(value) {
        Some(fields) => Ok(array_of(keys_and_values(alloc, fields.as_slice())?)),
        None => Ok(None),
    }
}

/// `items`: an object of `key` and `value` for each member, in the order of the names' bytes; none
/// where the array would nest above 120.
pub fn object_items(alloc: Global, args: &[Value]) -> Result<Option<Value>, OutOfMemory>
    ensures { IfOk result (λ value. option_map json value ≡ row.object_items (map json args.now)) }
{
    match args {
        [value] => items_in(alloc, value),
        _ => Ok(None),
    }
}

// The member of a name and a value; none where the name is no text.
fn named(alloc: Global, name: &Value, value: &Value) -> Result<Option<Field>, OutOfMemory>
    ensures { IfOk result (λ field. option_map member field
        ≡ option_map (λ s. (s, json value.now)) (text_of (json name.now))) }
{
    match text_of(name) {
        Some(name) => Ok(Some(Field {
            name: name.copy(alloc)?,
            value: value.copy(alloc)?,
        })),
        None => Ok(None),
    }
}

// The members that names and values in turn are; none for an odd number or a name that is no text.
fn paired(alloc: Global, args: &[Value]) -> Result<Option<Vec<Field>>, OutOfMemory>
    ensures { IfOk result (λ fields. option_map (λ v. map member v.items) fields ≡ paired (map json args.now)) }
{
    let mut fields = Vec::new(alloc);
    let mut rest = args;
    while let [name, value, following @ ..] = rest {
        match named(alloc, name, value)? {
            Some(field) => fields.push(field)?,
            None => return Ok(None),
        }
        rest = following;
    }
    if rest.is_empty() {
        Ok(Some(fields))
    } else {
        Ok(None)
    }
}

/// `createObject`: the object of names and values in turn, of equal names the last; none for an odd
/// number of arguments, a name that is no text, or an object that would nest above 120.
pub fn create_object(alloc: Global, args: &[Value]) -> Result<Option<Value>, OutOfMemory>
    ensures { IfOk result (λ value. option_map json value ≡ row.create_object (map json args.now)) }
{
    match paired(alloc, args)? {
        Some(fields) => object_of(alloc, fields),
        None => Ok(None),
    }
}

/// Whether a member's name is equal to the name but for the case of ASCII letters.
pub fn has_key(fields: &Fields, name: &Text) -> bool
    ensures { result ≡ has_key name.now fields.now }
{
    for field in fields.as_slice() {
        if field.name.equals_ignore_case(name.as_str()) {
            return true;
        }
    }
    false
}
