// Unions and intersections.
ghost use Rattle.std.specs.Prelude.{◌≡◌, ◌≤◌, ◌++◌, ◌∷◌, [], ◌&&◌, bytes_eq, map, option_map, IfOk, OnOk};
ghost use Rattle.std.specs.Prelude.{if◌then◌else◌};
ghost use Rattle.std.specs.List.{list_any, list_all, filter};
ghost use Rattle.arm_value.specs.Json.{object, pairs, IsInOrder};
ghost use Rattle.arm_value.specs.Same.{is_same};
ghost use Rattle.arm_value.specs.View.{json, member};
ghost use Rattle.function_lists.specs.Merge.{from, without_first, united_to};
ghost use Rattle.function_lists.specs.Members as row;
ghost use Rattle.function_lists.specs.Members.{under, united, united_all, union_by, is_member_of};
ghost use Rattle.function_lists.specs.Members.{intersection_with};
ghost use Rattle.arm_value.specs.Kinds.{is_object};

use crate::items::{intersection_of_arrays, union_of_arrays};
use crate::merge::{all_in_object, compare, move_below, push_named, take_object};
use crate::values::object_of;
use arm_value::{Field, Fields, OutOfMemory, Value};
use function_numbers::kinds::members_of;
use std::alloc::Global;
use std::collections::VecDeque;

// The members of both, of which those of the second win.
//
// The members of both are in the order of their names, so that one pass unites them.
#[cycle(union)]
fn united(alloc: Global, first: Fields, second: &Fields) -> Result<Fields, OutOfMemory>
    ensures { IfOk result (λ fields. fields ≡ united first (pairs second.now)) }
{
    let depth = first.depth();
    prove!(depth <= 119);
    let mut rest = VecDeque::from_vec(first.into_vec(alloc));
    let mut members = Vec::new(alloc);
    for field in second.as_slice() {
        add_united(alloc, &mut rest, &mut members, field)?;
    }
    all_in_object(alloc, rest, members)
}

// Moves the members whose names come before that of the field, and adds a member of its name: its
// value, united with the object that the first has there.
#[cycle(union)]
fn add_united(
    alloc: Global,
    rest: &mut VecDeque<Field>,
    members: &mut Vec<Field>,
    field: &Field,
) -> Result<(), OutOfMemory>
    ensures members { OnOk result (map member members.new.items
        ≡ map member members.old.items ++ united_to field.now.name (json field.now.value) (map member rest.old.items)) }
    ensures rest { OnOk result (map member rest.new.items
        ≡ without_first field.now.name (from field.now.name (map member rest.old.items))) }
{
    move_below(rest, members, &field.name)?;
    let value = under(alloc, take_object(rest, &field.name), &field.value)?;
    push_named(alloc, members, &field.name, value)
}

// A copy of the value, after the drop of another one.
fn copy_after<T: Drop>(alloc: Global, dropped: T, value: &Value) -> Result<Value, OutOfMemory>
    ensures { IfOk result (λ copy. json copy ≡ json value.now) }
{
    drop(dropped);
    value.copy(alloc)
}

// Two objects are united; else the second value wins.
#[cycle(union)]
fn under(alloc: Global, first: Option<Fields>, second: &Value) -> Result<Value, OutOfMemory>
    ensures { IfOk result (λ value. json value ≡ under first (json second.now)) }
{
    match first {
        Some(old) => match second {
            Value::Object(new) => Ok(Value::Object(united(alloc, old, new)?)),
            _ => copy_after(alloc, old, second),
        },
        None => second.copy(alloc),
    }
}

fn united_all(
    alloc: Global,
    first: &Fields,
    others: &[Value],
) -> Result<Option<Fields>, OutOfMemory>
    ensures { IfOk result (λ fields. fields ≡ united_all first.now (map json others.now)) }
{
    let mut all = first.copy(alloc)?;
    for other in others {
        match members_of(other) {
            Some(fields) => all = united(alloc, all, fields)?,
            None => return Ok(None),
        }
    }
    Ok(Some(all))
}

fn union_of_objects(
    alloc: Global,
    first: &Fields,
    others: &[Value],
) -> Result<Option<Value>, OutOfMemory>
    ensures { IfOk result (λ value. option_map json value
        ≡ option_map (λ ms. object (pairs ms)) (united_all first.now (map json others.now))) }
{
    match united_all(alloc, first, others)? {
        Some(fields) => Ok(Some(Value::Object(fields))),
        None => Ok(None),
    }
}

// The union of objects where there are a first one's members, else of arrays.
fn union_by(
    alloc: Global,
    first: Option<&Fields>,
    others: &[Value],
    args: &[Value],
) -> Result<Option<Value>, OutOfMemory>
    ensures { IfOk result (λ value. option_map json value
        ≡ union_by (option_map (λ f. f.now) first.entry) (map json others.now) (map json args.now)) }
{
    match first {
        Some(fields) => union_of_objects(alloc, fields, others),
        None => union_of_arrays(alloc, args),
    }
}

/// `union`: of arrays their items in the order of their first appearance, equal ones once; of
/// objects their members, of which the later win, and two objects under one name are united alike.
pub fn union(alloc: Global, args: &[Value]) -> Result<Option<Value>, OutOfMemory>
    ensures { IfOk result (λ value. option_map json value ≡ row.union (map json args.now)) }
{
    match args {
        [first, others @ ..] => union_by(alloc, members_of(first), others, args),
        [] => Ok(None),
    }
}

fn is_object(value: &Value) -> bool
    ensures { result ≡ is_object (json value.now) }
{
    match value {
        Value::Object(_) => true,
        _ => false,
    }
}

fn are_objects(values: &[Value]) -> bool
    ensures { result ≡ list_all is_object (map json values.now) }
{
    for value in values {
        if !is_object(value) {
            return false;
        }
    }
    true
}

// Whether one of these, which are in the order of their names, has the name and an equal value.
fn has_field(fields: &[Field], field: &Field) -> bool
    requires { IsInOrder (map member fields.now) }
    ensures { result ≡ list_any (λ n. bytes_eq field.now.name n.0 && is_same (json field.now.value) n.1)
        (map member fields.now) }
{
    match fields.binary_search_by(|other| compare(other, &field.name)) {
        Ok(place) => field.value.same(&fields[place].value),
        Err(_) => false,
    }
}

#[tactic(auto, using(function_numbers::proofs::RowLemmas::members_of_pairs))]
fn is_member_of(field: &Field, object: &Value) -> bool
    ensures { result ≡ is_member_of (member field.now) (json object.now) }
{
    match object {
        Value::Object(fields) => has_field(fields.as_slice(), field),
        _ => false,
    }
}

fn is_in_all(field: &Field, objects: &[Value]) -> bool
    ensures { result ≡ list_all (is_member_of (member field.now)) (map json objects.now) }
{
    for object in objects {
        if !is_member_of(field, object) {
            return false;
        }
    }
    true
}

// Puts a copy of the member last, where it passes.
fn add_passing(
    alloc: Global,
    all: &mut Vec<Field>,
    field: &Field,
    passes: bool,
) -> Result<(), OutOfMemory>
    ensures { OnOk result (map member all.new.items
        ≡ (if passes then map member all.old.items ++ member field.now ∷ [] else map member all.old.items)) }
{
    if passes {
        let name = field.name.copy(alloc)?;
        let value = field.value.copy(alloc)?;
        all.push(Field { name, value })?;
    }
    Ok(())
}

// Copies of the members that are equal in all these objects.
fn common(alloc: Global, fields: &[Field], objects: &[Value]) -> Result<Vec<Field>, OutOfMemory>
    ensures { IfOk result (λ all. map member all.items
        ≡ filter (λ m. list_all (is_member_of m) (map json objects.now)) (map member fields.now)) }
{
    let mut all = Vec::new(alloc);
    for field in fields {
        add_passing(alloc, &mut all, field, is_in_all(field, objects))?;
    }
    Ok(all)
}

fn intersection_of_objects(
    alloc: Global,
    fields: &Fields,
    others: &[Value],
) -> Result<Option<Value>, OutOfMemory>
    ensures { IfOk result (λ value. option_map json value
        ≡ row.intersection_of_objects fields.now (map json others.now)) }
{
    if !are_objects(others) {
        return Ok(None);
    }
    let all = common(alloc, fields.as_slice(), others)?;
    object_of(alloc, all)
}

#[tactic(auto, using(function_numbers::proofs::RowLemmas::rows_and_pairs))]
fn intersection_with(
    alloc: Global,
    first: &Value,
    others: &[Value],
) -> Result<Option<Value>, OutOfMemory>
    ensures { IfOk result (λ value. option_map json value ≡ intersection_with (json first.now) (map json others.now)) }
{
    match first {
        Value::Array(items) => intersection_of_arrays(alloc, items.as_slice(), others),
        Value::Object(fields) => intersection_of_objects(alloc, fields, others),
        _ => Ok(None),
    }
}

/// `intersection`: of arrays the items of the first that are in all others, equal ones once; of
/// objects the members that are equal in all.
pub fn intersection(alloc: Global, args: &[Value]) -> Result<Option<Value>, OutOfMemory>
    ensures { IfOk result (λ value. option_map json value ≡ row.intersection (map json args.now)) }
{
    match args {
        [first, others @ ..] => intersection_with(alloc, first, others),
        [] => Ok(None),
    }
}
