// Arrays and objects of what their parts give.
ghost use Rattle.std.specs.Prelude.{◌≡◌, ◌≤◌, ◌∷◌, ◌++◌, [], Some, map, option_map, IfOk, OnOk, MatchOption};
ghost use Rattle.arm_value.specs.Json.{nesting, members_nesting, put_each};
ghost use Rattle.arm_value.specs.View.{json, member};
ghost use Rattle.arm_eval.specs.Trees.{names_of};
ghost use Rattle.arm_eval.specs.Words.{own_of, with_each, kept_array, kept_object, whole_object};
ghost use Rattle.reading.specs.Knowledge.{finished};
ghost use Rattle.arm_env.specs.Answer.{with_last, Gives};

use crate::names::are_free;
use arm_env::held::keep;
use arm_env::stop::{Stop, stopped};
use arm_value::{Field, Fields, Items, OutOfMemory, Text, Value};
use std::alloc::Global;

/// The values with one more at their end, where all are there.
pub(crate) fn with_value(
    alloc: Global,
    values: Option<Items>,
    value: Option<Value>,
) -> Result<Option<Items>, OutOfMemory>
    requires { MatchOption value (Unit {0}) (λ v. nesting (json v) ≤ 119) }
    ensures { IfOk result (λ all. all ≡ with_last values (option_map json value)) }
{
    match values {
        Some(values) => match value {
            Some(value) => push_value(alloc, values, value),
            None => Ok(None),
        },
        None => Ok(None),
    }
}

fn push_value(alloc: Global, values: Items, value: Value) -> Result<Option<Items>, OutOfMemory>
    requires { nesting (json value) ≤ 119 }
    ensures { IfOk result (λ all. all ≡ Some (values ++ json value ∷ [])) }
{
    let mut values = values;
    values.push(alloc, value)?;
    Ok(Some(values))
}

/// The array of values, where all are there and it nests at most 100 deep.
pub(crate) fn array_of(values: Option<Items>) -> Result<Value, Stop>
    ensures { Gives json result (finished (kept_array values)) }
{
    match values {
        Some(values) => keep(Value::Array(values)),
        None => Err(Stop::NoValue),
    }
}

/// What an object has of its own by one of its members.
#[derive(Drop)]
pub(crate) enum Own {
    /// Nothing, by `copy`.
    Nothing,
    Value(Value),
}

/// The members with one more put among them, where all are there.
pub(crate) fn with_own(
    alloc: Global,
    own: Option<Fields>,
    name: &Text,
    found: Option<Own>,
) -> Result<Option<Fields>, OutOfMemory>
    requires { MatchOption found (Unit {0}) (λ o. members_nesting (own_of name.now o) ≤ 119) }
    ensures { IfOk result (λ all. all ≡ with_each own (option_map (own_of name.now) found)) }
{
    match own {
        Some(own) => match found {
            Some(found) => put_own(alloc, own, name, found),
            None => Ok(None),
        },
        None => Ok(None),
    }
}

fn put_own(
    alloc: Global,
    own: Fields,
    name: &Text,
    found: Own,
) -> Result<Option<Fields>, OutOfMemory>
    requires { members_nesting (own_of name.now found) ≤ 119 }
    ensures { IfOk result (λ all. all ≡ Some (put_each own (own_of name.now found))) }
{
    match found {
        Own::Nothing => Ok(Some(own)),
        Own::Value(value) => {
            let mut own = own;
            own.set(alloc, name.as_str(), value)?;
            Ok(Some(own))
        }
    }
}

/// The members, where all are there.
pub(crate) fn all_given(added: Option<Vec<Field>>) -> Result<Vec<Field>, Stop>
    ensures { Gives (λ v. map member v.items) result
        (finished (option_map (λ v. map member v.items) added)) }
{
    match added {
        Some(added) => Ok(added),
        None => Err(Stop::NoValue),
    }
}

/// The members with one more at their end, where all are there.
pub(crate) fn with_given(
    added: Option<Vec<Field>>,
    field: Option<Field>,
) -> Result<Option<Vec<Field>>, OutOfMemory>
    ensures { IfOk result (λ all. option_map (λ v. map member v.items) all
        ≡ with_last (option_map (λ v. map member v.items) added) (option_map member field)) }
{
    match added {
        Some(added) => match field {
            Some(field) => push_given(added, field),
            None => Ok(None),
        },
        None => Ok(None),
    }
}

fn push_given(added: Vec<Field>, field: Field) -> Result<Option<Vec<Field>>, OutOfMemory>
    ensures { IfOk result (λ all. option_map (λ v. map member v.items) all
        ≡ Some (map member added.items ++ member field ∷ [])) }
{
    let mut added = added;
    added.push(field)?;
    Ok(Some(added))
}

/// The member of the name with the array of values, where all are there.
pub(crate) fn field_of(alloc: Global, name: &Text, values: Option<Items>) -> Result<Field, Stop>
    ensures { Gives member result (finished (option_map (λ v. (name.now, v)) (kept_array values))) }
{
    let value = array_of(values)?;
    Ok(Field {
        name: name.copy(alloc)?,
        value,
    })
}

/// The object of own members and of those that loops give, whose names it does not have and which
/// differ, where it nests at most 100 deep.
///
/// It takes time in the order of n log n for n members.
pub(crate) fn whole_object(
    alloc: Global,
    fields: &[Field],
    own: Option<Fields>,
    added: Vec<Field>,
) -> Result<Value, Stop>
    requires { members_nesting (map member added.items) ≤ 119 }
    ensures { Gives json result
        (finished (whole_object (names_of (map member fields.now)) own (map member added.items))) }
{
    match own {
        Some(own) => object_with(alloc, fields, own, added),
        None => stopped(Stop::NoValue, added),
    }
}

fn object_with(
    alloc: Global,
    fields: &[Field],
    own: Fields,
    added: Vec<Field>,
) -> Result<Value, Stop>
    requires { members_nesting (map member added.items) ≤ 119 }
    ensures { Gives json result (finished (whole_object (names_of (map member fields.now)) (Some own)
        (map member added.items))) }
{
    if added.is_empty() {
        return keep(Value::Object(own));
    }
    match are_free(alloc, fields, added.as_slice()) {
        Ok(free) => if free {
            joined(alloc, own, added)
        } else {
            stopped(Stop::NoValue, (own, added))
        },
        Err(_) => stopped(Stop::OutOfMemory, (own, added)),
    }
}

// Moves the elements to the end of the list.
fn push_all<T: Drop>(list: &mut Vec<T>, more: Vec<T>) -> Result<(), OutOfMemory>
    ensures { OnOk result (list.new.items ≡ list.old.items ++ more.items) }
{
    for element in more {
        list.push(element)?;
    }
    Ok(())
}

// The own members, among which the others are put.
fn put_together(alloc: Global, own: Fields, added: Vec<Field>) -> Result<Fields, OutOfMemory>
    requires { members_nesting (map member added.items) ≤ 119 }
    ensures { IfOk result (λ whole. whole ≡ put_each own (map member added.items)) }
{
    let depth = own.depth();
    prove!(depth <= 119);
    let mut members = own.into_vec(alloc);
    push_all(&mut members, added)?;
    Fields::from_members(alloc, members)
}

fn joined(alloc: Global, own: Fields, added: Vec<Field>) -> Result<Value, Stop>
    requires { members_nesting (map member added.items) ≤ 119 }
    ensures { Gives json result (finished (kept_object own (map member added.items))) }
{
    let whole = put_together(alloc, own, added)?;
    keep(Value::Object(whole))
}
