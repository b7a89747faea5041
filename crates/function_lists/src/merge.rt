// The members of two objects side by side, each list in the order of its names.
ghost use Rattle.std.specs.Prelude.{◌≡◌, ◌≤◌, ◌++◌, ◌∷◌, [], List, Some, None, map, IfOk, OnOk, IsErr};
ghost use Rattle.std.specs.Ordering.{is_lt};
ghost use Rattle.arm_value.specs.Json.{key_cmp, members_nesting, IsInOrder};
ghost use Rattle.arm_value.specs.View.{json, member};
ghost use Rattle.function_numbers.specs.Kinds.{members_of};
ghost use Rattle.function_lists.specs.Merge.{starts_below, below, from, starts_at, object_first, without_first};

use arm_value::{Field, Fields, OutOfMemory, Text, Value};
use std::alloc::{AllocError, Global};
use std::cmp::Ordering;
use std::collections::VecDeque;

/// How the member's name compares with the name, by their bytes.
pub fn compare(field: &Field, name: &Text) -> Ordering
    ensures { result ≡ key_cmp field.now.name name.now }
{
    field.name.as_str().cmp(name.as_str())
}

fn starts_below(fields: &VecDeque<Field>, name: &Text) -> bool
    ensures { result ≡ starts_below name.now (map member fields.now.items) }
{
    match fields.front() {
        Some(field) => compare(field, name).is_lt(),
        None => false,
    }
}

fn starts_at(fields: &VecDeque<Field>, name: &Text) -> bool
    ensures { result ≡ starts_at name.now (map member fields.now.items) }
{
    match fields.front() {
        Some(field) => name.same(&field.name),
        None => false,
    }
}

// Moves the first element to the end of the list; there is none where the queue is empty.
fn move_first<T: Drop>(queue: &mut VecDeque<T>, list: &mut Vec<T>) -> Result<(), OutOfMemory>
    ensures moved { (x : T) (xs : List T) → queue.old.items ≡ x ∷ xs
        → OnOk result (list.new.items ≡ list.old.items ++ x ∷ []) }
    ensures left { (x : T) (xs : List T) → queue.old.items ≡ x ∷ xs → queue.new.items ≡ xs }
{
    match queue.pop_front() {
        Some(element) => list.push(element)?,
        None => {}
    }
    Ok(())
}

/// Moves the members at the front whose names come before the name.
pub fn move_below(
    fields: &mut VecDeque<Field>,
    members: &mut Vec<Field>,
    name: &Text,
) -> Result<(), OutOfMemory>
    ensures moved { OnOk result (map member members.new.items
        ≡ map member members.old.items ++ below name.now (map member fields.old.items)) }
    ensures left { OnOk result (map member fields.new.items
        ≡ from name.now (map member fields.old.items)) }
{
    while starts_below(fields, name) {
        move_first(fields, members)?;
    }
    Ok(())
}

// No value, after the drop of one.
fn none_after<T: Drop, U>(dropped: T) -> Option<U>
    ensures { result ≡ None }
{
    drop(dropped);
    None
}

// The value, after the drop of another one.
fn some_after<T, U: Drop>(kept: T, dropped: U) -> Option<T>
    ensures { result ≡ Some kept }
{
    drop(dropped);
    Some(kept)
}

// The members of the object that the member's value is.
#[tactic(auto, using(function_numbers::proofs::RowLemmas::members_of_pairs))]
fn object_in(field: Field) -> Option<Fields>
    ensures { result ≡ members_of (json field.value) }
{
    let Field { name, value } = field;
    match value {
        Value::Object(fields) => some_after(fields, name),
        other => none_after((other, name)),
    }
}

/// Takes the first member, where its name is the name, and gives the members of the object that
/// its value is.
pub fn take_object(fields: &mut VecDeque<Field>, name: &Text) -> Option<Fields>
    ensures object { result ≡ object_first name.now (map member fields.old.items) }
    ensures left { map member fields.new.items ≡ without_first name.now (map member fields.old.items) }
{
    if !starts_at(fields, name) {
        return None;
    }
    match fields.pop_front() {
        Some(field) => object_in(field),
        None => None,
    }
}

// Out of memory, after the drop of what is not needed.
fn lacks_memory<T: Drop>(dropped: T) -> Result<(), OutOfMemory>
    ensures { IsErr result }
{
    drop(dropped);
    Err(AllocError)
}

/// Adds a member of a copy of the name and of the value.
pub fn push_named(
    alloc: Global,
    members: &mut Vec<Field>,
    name: &Text,
    value: Value,
) -> Result<(), OutOfMemory>
    ensures { OnOk result (map member members.new.items
        ≡ map member members.old.items ++ (name.now, json value) ∷ []) }
{
    match name.copy(alloc) {
        Ok(name) => {
            members.push(Field { name, value })?;
            Ok(())
        }
        Err(_) => lacks_memory(value),
    }
}

// Moves all elements to the end of the list.
fn move_all<T: Drop>(queue: VecDeque<T>, list: &mut Vec<T>) -> Result<(), OutOfMemory>
    ensures { OnOk result (list.new.items ≡ list.old.items ++ queue.items) }
{
    for element in queue {
        list.push(element)?;
    }
    Ok(())
}

/// The members, which are in the order of their names, as those of an object.
pub fn in_object(alloc: Global, members: Vec<Field>) -> Result<Fields, OutOfMemory>
    requires ordered { IsInOrder (map member members.items) }
    requires nests { members_nesting (map member members.items) ≤ 119 }
    ensures { IfOk result (λ fields. fields ≡ map member members.items) }
{
    let mut fields = Fields::new();
    for field in members {
        fields.push_last(alloc, field.name, field.value)?;
    }
    Ok(fields)
}

/// The members and those of the queue, which are together in the order of their names, as those of
/// an object.
pub fn all_in_object(
    alloc: Global,
    queue: VecDeque<Field>,
    members: Vec<Field>,
) -> Result<Fields, OutOfMemory>
    requires ordered { IsInOrder (map member members.items ++ map member queue.items) }
    requires nests { members_nesting (map member members.items ++ map member queue.items) ≤ 119 }
    ensures { IfOk result (λ fields. fields ≡ map member members.items ++ map member queue.items) }
{
    let mut members = members;
    move_all(queue, &mut members)?;
    in_object(alloc, members)
}
