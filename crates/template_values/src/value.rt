// Why a value that may have expressions and loops in it is refused.

ghost use Rattle.std.specs.Prelude.{◌≡◌, [], Some, IfOk};
ghost use Rattle.arm_value.specs.Json.{row, pairs, keys};
ghost use Rattle.arm_value.specs.View.{json};
ghost use Rattle.template_values.specs.Order.{below, to_item};
ghost use Rattle.template_values.specs.Values.{value_fault, items_fault, members_fault, copy_fault, loops_fault};
ghost use Rattle.template_values.specs.Values.{loop_fault, parts_fault, member_fault, part_fault};

use crate::names::{is_copy, names_of, with_loop};
use crate::order::{Faulty, at_item, at_member, decided, missing, wrong_form};
use crate::parts::part_fault;
use arm_expr::is_bracketed;
use arm_value::{Field, Fields, Items, OutOfMemory, Text, Value};
use name_set::{NameSet, TextSet};
use std::alloc::Global;
use template_parts::{TemplateFault, run_out};
use template_texts::{Place, Sight, text_fault};

// The members of a loop, in byte order.
const LOOP_MEMBERS: [&str; 3] = ["count", "input", "name"];

// The fault of the item at the place; the names are dropped.
fn placed(
    alloc: Global,
    _names: TextSet,
    place: usize,
    fault: TemplateFault,
) -> Result<Option<TemplateFault>, OutOfMemory>
    ensures { IfOk result (λ f. f ≡ Some (below (to_item place) fault)) }
{
    Ok(Some(at_item(alloc, place, fault)?))
}

// The member of this name with its fault; the names are dropped.
fn faulty(
    alloc: Global,
    _seen: NameSet,
    name: &Text,
    fault: TemplateFault,
) -> Result<Option<Faulty>, OutOfMemory>
    ensures { IfOk result (λ f. f ≡ Some (record { name = name.now; fault = fault })) }
{
    match name.copy(alloc) {
        Ok(name) => Ok(Some(Faulty { name, fault })),
        Err(_) => run_out(fault),
    }
}

/// Why a value that may have expressions and loops in it is refused, with the path from the value on; none where it is
/// not.
///
/// A text is refused as `text_fault` says. A member whose name begins with `[` and ends with `]` is of a wrong form. A
/// member `copy` is an array of loops, each an object of a `name`, a `count` and an `input`; the name is a text that is
/// not in brackets, and no member of the object and no loop before it has that name.
#[cycle(fault)]
pub fn value_fault(
    alloc: Global,
    here: &Sight,
    place: Place,
    value: &Value,
) -> Result<Option<TemplateFault>, OutOfMemory>
    ensures { IfOk result (λ f. f ≡ value_fault here.now place (json value.now)) }
{
    match value {
        Value::Null => Ok(None),
        Value::Bool(_) => Ok(None),
        Value::Int(_) => Ok(None),
        Value::Text(text) => text_fault(alloc, here, place, text),
        Value::Array(items) => items_fault(alloc, here, place, items),
        Value::Object(fields) => fields_fault(alloc, here, place, fields),
    }
}

// Why an item is refused.
#[cycle(fault)]
fn items_fault(
    alloc: Global,
    here: &Sight,
    place: Place,
    items: &Items,
) -> Result<Option<TemplateFault>, OutOfMemory>
    ensures { IfOk result (λ f. f ≡ items_fault here.now place 0 (row items.now)) }
{
    for (i, item) in items.as_slice().iter().enumerate() {
        if let Some(fault) = value_fault(alloc, here, place, item)? {
            return Ok(Some(at_item(alloc, i, fault)?));
        }
    }
    Ok(None)
}

// Why a member is refused.
#[cycle(fault)]
fn fields_fault(
    alloc: Global,
    here: &Sight,
    place: Place,
    fields: &Fields,
) -> Result<Option<TemplateFault>, OutOfMemory>
    ensures { IfOk result (λ f. f ≡ members_fault here.now place (keys fields.now) (pairs fields.now)) }
{
    for field in fields.as_slice() {
        if let Some(fault) = member_fault(alloc, here, place, fields, field)? {
            return Ok(Some(at_member(alloc, &field.name, fault)?));
        }
    }
    Ok(None)
}

// Why a member of an object of these members is refused.
#[cycle(fault)]
fn member_fault(
    alloc: Global,
    here: &Sight,
    place: Place,
    fields: &Fields,
    field: &Field,
) -> Result<Option<TemplateFault>, OutOfMemory>
    ensures { IfOk result (λ f. f ≡ member_fault field.now.name
        (copy_fault here.now place (keys fields.now) (json field.now.value))
        (value_fault here.now place (json field.now.value))) }
{
    if is_bracketed(field.name.as_str()) {
        return Ok(Some(wrong_form(alloc)));
    }
    if is_copy(&field.name) {
        copy_fault(alloc, here, place, fields, &field.value)
    } else {
        value_fault(alloc, here, place, &field.value)
    }
}

// Why the member `copy` of an object of these members is refused.
#[cycle(fault)]
fn copy_fault(
    alloc: Global,
    here: &Sight,
    place: Place,
    fields: &Fields,
    value: &Value,
) -> Result<Option<TemplateFault>, OutOfMemory>
    ensures { IfOk result (λ f. f ≡ copy_fault here.now place (keys fields.now) (json value.now)) }
{
    match value {
        Value::Array(items) => {
            let names = names_of(alloc, fields)?;
            loops_fault(alloc, here, place, names, items)
        }
        _ => Ok(Some(wrong_form(alloc))),
    }
}

// Why a loop of an object with these names is refused.
#[cycle(fault)]
fn loops_fault(
    alloc: Global,
    here: &Sight,
    place: Place,
    names: TextSet,
    items: &Items,
) -> Result<Option<TemplateFault>, OutOfMemory>
    ensures { IfOk result (λ f. f ≡ loops_fault here.now place names 0 (row items.now)) }
{
    let mut taken = names;
    for (i, item) in items.as_slice().iter().enumerate() {
        match loop_fault(alloc, here, place, &taken, item) {
            Ok(None) => taken = with_loop(alloc, taken, item)?,
            Ok(Some(fault)) => return placed(alloc, taken, i, fault),
            Err(_) => return run_out(taken),
        }
    }
    Ok(None)
}

// Why a loop of an object with these names is refused.
#[cycle(fault)]
#[tactic(auto, using(crate::proofs::WordLemmas::words))]
fn loop_fault(
    alloc: Global,
    here: &Sight,
    place: Place,
    names: &TextSet,
    value: &Value,
) -> Result<Option<TemplateFault>, OutOfMemory>
    ensures { IfOk result (λ f. f ≡ loop_fault here.now place names.now (json value.now)) }
{
    match value {
        Value::Object(fields) => {
            let faulty = parts_fault(alloc, here, place, names, fields)?;
            decided(alloc, missing(&LOOP_MEMBERS, fields), faulty)
        }
        _ => Ok(Some(wrong_form(alloc))),
    }
}

// The first member of a loop that is refused.
#[cycle(fault)]
fn parts_fault(
    alloc: Global,
    here: &Sight,
    place: Place,
    names: &TextSet,
    fields: &Fields,
) -> Result<Option<Faulty>, OutOfMemory>
    ensures { IfOk result (λ f. f
        ≡ parts_fault here.now place names.now [] (pairs fields.now)) }
{
    let mut seen = NameSet::new(alloc);
    for field in fields.as_slice() {
        match loop_member_fault(alloc, here, place, names, &seen, field) {
            Ok(None) => seen = seen.with(alloc, &field.name)?,
            Ok(Some(fault)) => return faulty(alloc, seen, &field.name, fault),
            Err(_) => return run_out(seen),
        }
    }
    Ok(None)
}

// Why a member of a loop is refused, after members of these names.
#[cycle(fault)]
fn loop_member_fault(
    alloc: Global,
    here: &Sight,
    place: Place,
    names: &TextSet,
    seen: &NameSet,
    field: &Field,
) -> Result<Option<TemplateFault>, OutOfMemory>
    ensures { IfOk result (λ f. f ≡ part_fault names.now seen.now field.now.name (json field.now.value)
        (value_fault here.now place (json field.now.value))) }
{
    let inner = value_fault(alloc, here, place, &field.value)?;
    part_fault(alloc, names, seen, field, inner)
}
