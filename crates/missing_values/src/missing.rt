// Where a JSON tree with expressions and loops has no value.
ghost use Rattle.std.specs.Prelude.{◌≡◌, map};
ghost use Rattle.arm_value.specs.Json.{row, pairs};
ghost use Rattle.arm_value.specs.View.{json, member};
ghost use Rattle.reading.specs.Knowledge.{told};
ghost use Rattle.arm_env.specs.Answer.{Gives, outcome_told};
ghost use Rattle.arm_env.specs.Sight.{here};
ghost use Rattle.arm_eval.specs.Trees.{tree_value};
ghost use Rattle.arm_eval.specs.Trees as trees;
ghost use Rattle.arm_eval.specs.Words.{copying_of};
ghost use Rattle.missing_values.specs.Missing as paths;
ghost use Rattle.missing_values.specs.Words.{path_found, there_told, is_nowhere};
ghost use Rattle.arm_expr.specs.Brackets.{is_copy};

use crate::path::{Step, below_item, below_member, or_whole};
use arm_env::entries::{Around, Entries};
use arm_env::stop;
use arm_env::stop::{Stop, let_go};
use arm_eval::copying::{Copying, copy_of, is_copy, loops_named, turn_to};
use arm_eval::{counting, tree_value};
use arm_value::{Field, Text, Value};
use std::alloc::Global;

// Whether a tree has a value. The value is dropped.
fn has_value<'a, K: Entries>(
    alloc: Global,
    entries: &'a K,
    around: &Around,
    tree: &Value,
) -> Result<bool, Stop>
    ensures { Gives (λ b. b) result (there_told
        (told (K.known entries.now) (tree_value (json tree.now) (here around.now)))) }
{
    let found = stop::outcome(tree_value(alloc, entries, around, tree))?;
    match found {
        Some(value) => {
            let_go(value);
            Ok(true)
        }
        None => Ok(false),
    }
}

// The count of a loop, or that its tree is none.
fn count_of<'a, K: Entries>(
    alloc: Global,
    entries: &'a K,
    around: &Around,
    tree: &Value,
) -> Result<Option<u32>, Stop>
    ensures { Gives (λ n. n) result (outcome_told (told (K.known entries.now)
        (trees.counting (tree_value (json tree.now) (here around.now))))) }
{
    stop::outcome(counting(alloc, entries, around, tree))
}

// Whether it was found that each part has a value.
fn is_nowhere(found: &Result<Option<Vec<Step>>, Stop>) -> bool
    ensures { result ≡ is_nowhere found.now }
{
    match found {
        Ok(Some(_)) => false,
        Ok(None) => true,
        Err(_) => false,
    }
}

/// The path to the deepest part of a tree that has no value, its innermost step first; none where
/// the tree has a value. The path is empty where the tree alone has none.
///
/// Of several parts without a value the path is to the first: items are in their order, members in
/// the byte order of their names. In `copy` the parts are the count of each loop, and its input at
/// each index, which is looked at where the count is one.
///
/// A part is evaluated once for each tree around it.
#[cycle(missing)]
pub fn missing_path<'a, K: Entries>(
    alloc: Global,
    entries: &'a K,
    around: &Around,
    tree: &Value,
) -> Result<Option<Vec<Step>>, Stop>
    ensures { Gives path_found result (told (K.known entries.now)
        (paths.missing_path (json tree.now) (here around.now))) }
{
    let there = has_value(alloc, entries, around, tree)?;
    if there {
        return Ok(None);
    }
    let found = in_parts(alloc, entries, around, tree)?;
    Ok(Some(or_whole(alloc, found)))
}

// In the parts of a tree.
#[cycle(missing)]
fn in_parts<'a, K: Entries>(
    alloc: Global,
    entries: &'a K,
    around: &Around,
    tree: &Value,
) -> Result<Option<Vec<Step>>, Stop>
    ensures { Gives path_found result (told (K.known entries.now)
        (paths.in_parts (json tree.now) (here around.now))) }
{
    match tree {
        Value::Array(items) => first_item(alloc, entries, around, items.as_slice()),
        Value::Object(fields) => first_member(alloc, entries, around, fields.as_slice()),
        _ => Ok(None),
    }
}

// In the first of the items that has no value.
#[cycle(missing)]
fn first_item<'a, K: Entries>(
    alloc: Global,
    entries: &'a K,
    around: &Around,
    trees: &[Value],
) -> Result<Option<Vec<Step>>, Stop>
    ensures { Gives path_found result (told (K.known entries.now)
        (paths.first_item (row (map json trees.now)) (here around.now) 0)) }
{
    for place in 0..trees.len() {
        let found = below_item(missing_path(alloc, entries, around, &trees[place]), place);
        if is_nowhere(&found) {
            let_go(found);
        } else {
            return found;
        }
    }
    Ok(None)
}

// In a member of an object.
#[cycle(missing)]
fn in_member<'a, K: Entries>(
    alloc: Global,
    entries: &'a K,
    around: &Around,
    field: &Field,
) -> Result<Option<Vec<Step>>, Stop>
    ensures { Gives path_found result (told (K.known entries.now)
        (paths.in_member field.now.name (json field.now.value) (here around.now))) }
{
    if is_copy(&field.name) {
        in_copy(alloc, entries, around, &field.value)
    } else {
        missing_path(alloc, entries, around, &field.value)
    }
}

// In the first of the members that has no value.
#[cycle(missing)]
fn first_member<'a, K: Entries>(
    alloc: Global,
    entries: &'a K,
    around: &Around,
    fields: &[Field],
) -> Result<Option<Vec<Step>>, Stop>
    ensures { Gives path_found result (told (K.known entries.now)
        (paths.first_member (pairs (map member fields.now)) (here around.now))) }
{
    for field in fields {
        let found = below_member(alloc, in_member(alloc, entries, around, field), &field.name);
        if is_nowhere(&found) {
            let_go(found);
        } else {
            return found;
        }
    }
    Ok(None)
}

// In the loops of `copy`.
#[cycle(missing)]
fn in_copy<'a, K: Entries>(
    alloc: Global,
    entries: &'a K,
    around: &Around,
    tree: &Value,
) -> Result<Option<Vec<Step>>, Stop>
    ensures { Gives path_found result (told (K.known entries.now)
        (paths.in_copy (json tree.now) (here around.now))) }
{
    match tree {
        Value::Array(items) => first_loop(alloc, entries, around, items.as_slice()),
        _ => Ok(None),
    }
}

// In the first of the loops that has no value.
#[cycle(missing)]
fn first_loop<'a, K: Entries>(
    alloc: Global,
    entries: &'a K,
    around: &Around,
    trees: &[Value],
) -> Result<Option<Vec<Step>>, Stop>
    ensures { Gives path_found result (told (K.known entries.now)
        (paths.first_loop (row (map json trees.now)) (here around.now) 0)) }
{
    for place in 0..trees.len() {
        let found = below_item(in_loop(alloc, entries, around, &trees[place]), place);
        if is_nowhere(&found) {
            let_go(found);
        } else {
            return found;
        }
    }
    Ok(None)
}

// In a loop, where the tree is one.
#[cycle(missing)]
fn in_loop<'a, K: Entries>(
    alloc: Global,
    entries: &'a K,
    around: &Around,
    tree: &Value,
) -> Result<Option<Vec<Step>>, Stop>
    ensures { Gives path_found result (told (K.known entries.now)
        (paths.loop_at (json tree.now) (here around.now))) }
{
    match tree {
        Value::Object(fields) => match copy_of(tree) {
            Some(copy) => first_loop_member(alloc, entries, around, &copy, fields.as_slice()),
            None => Ok(None),
        },
        _ => Ok(None),
    }
}

// In the first of the members of a loop that has no value.
#[cycle(missing)]
fn first_loop_member<'a, K: Entries>(
    alloc: Global,
    entries: &'a K,
    around: &Around,
    copy: &Copying,
    fields: &[Field],
) -> Result<Option<Vec<Step>>, Stop>
    ensures { Gives path_found result (told (K.known entries.now) (paths.first_loop_member
        (copying_of copy.now) (pairs (map member fields.now)) (here around.now))) }
{
    for field in fields {
        let inside = in_loop_member(alloc, entries, around, copy, field);
        let found = below_member(alloc, inside, &field.name);
        if is_nowhere(&found) {
            let_go(found);
        } else {
            return found;
        }
    }
    Ok(None)
}

// In a member of a loop: in its count, or in its input.
#[cycle(missing)]
fn in_loop_member<'a, K: Entries>(
    alloc: Global,
    entries: &'a K,
    around: &Around,
    copy: &Copying,
    field: &Field,
) -> Result<Option<Vec<Step>>, Stop>
    ensures { Gives path_found result (told (K.known entries.now) (paths.in_loop_member
        (copying_of copy.now) field.now.name (paths.missing_path (json field.now.value))
        (here around.now))) }
{
    if field.name.equals_ignore_case("count") {
        missing_path(alloc, entries, around, &field.value)
    } else if field.name.equals_ignore_case("input") {
        in_input(alloc, entries, around, copy, &field.value)
    } else {
        Ok(None)
    }
}

// In the input of a loop, where its count is one.
#[cycle(missing)]
fn in_input<'a, K: Entries>(
    alloc: Global,
    entries: &'a K,
    around: &Around,
    copy: &Copying,
    input: &Value,
) -> Result<Option<Vec<Step>>, Stop>
    ensures { Gives path_found result (told (K.known entries.now) (paths.in_input
        (paths.missing_path (json input.now)) (copying_of copy.now) (here around.now))) }
{
    let count = count_of(alloc, entries, around, copy.count)?;
    match count {
        Some(count) => first_turn(alloc, entries, around, copy.name, input, count),
        None => Ok(None),
    }
}

// In the input at the first index below the count at which it has no value.
#[cycle(missing)]
fn first_turn<'a, K: Entries>(
    alloc: Global,
    entries: &'a K,
    around: &Around,
    name: &Text,
    input: &Value,
    count: u32,
) -> Result<Option<Vec<Step>>, Stop>
    ensures { Gives path_found result (told (K.known entries.now) (paths.first_turn
        (paths.missing_path (json input.now)) name.now (here around.now) 0 count)) }
{
    let mut loops = loops_named(alloc, around.loops, name)?;
    for index in 0..count {
        turn_to(&mut loops, index);
        let inside = Around {
            loops: loops.as_slice(),
            place: around.place,
        };
        let found = missing_path(alloc, entries, &inside, input);
        if is_nowhere(&found) {
            let_go(found);
        } else {
            let_go(loops);
            return found;
        }
    }
    let_go(loops);
    Ok(None)
}
