// The loops that the member `copy` of an object holds.
ghost use Rattle.std.specs.Prelude.{◌≡◌, ◌≤◌, ◌<◌, ◌∷◌, suc, List, length, chars, map};
ghost use Rattle.std.specs.Prelude.{option_map, IfOk, MatchOption, codes};
ghost use Rattle.arm_value.specs.Json.{nesting, items_nesting, members_nesting, pairs};
ghost use Rattle.arm_value.specs.View.{json, member};
ghost use Rattle.arm_eval.specs.Trees as trees;
ghost use Rattle.arm_eval.specs.Trees.{parts, looping_of};
ghost use Rattle.arm_eval.specs.Outputs.{output_loop};
ghost use Rattle.arm_env.specs.declared.env.Looping.{Looping};
ghost use Rattle.arm_eval.specs.Words.{copying_of, NestsBelow, tree_in, trees_in, copy_tree};
ghost use Rattle.arm_expr.specs.Brackets.{is_copy};

use arm_env::env::Looping;
use arm_env::stop::let_go;
use arm_env::text_of;
use arm_value::{Field, OutOfMemory, Text, Value};
use foundation::limits::MAX_COPY_COUNT;
use std::alloc::Global;

/// Whether it is the name of the member that holds loops.
pub fn is_copy(name: &Text) -> bool
    ensures { result ≡ is_copy name.now }
{
    name.as_str() == "copy"
}

/// The tree of the member `copy`.
pub(crate) fn copy_tree(fields: &[Field]) -> Option<&Value>
    ensures tree { option_map (λ v. json v.now) result ≡ copy_tree (map member fields.now) }
    ensures nests { MatchOption result (Unit {0})
        (λ v. nesting (json v.now) ≤ members_nesting (map member fields.now)) }
{
    for field in fields {
        if is_copy(&field.name) {
            return Some(&field.value);
        }
    }
    None
}

/// The trees of an array.
pub(crate) fn trees_in(tree: &Value) -> Option<&[Value]>
    ensures trees { option_map (λ vs. map json vs.now) result ≡ trees_in (json tree.now) }
    ensures nests { MatchOption result (Unit {0})
        (λ vs. items_nesting (map json vs.now) < nesting (json tree.now)) }
{
    match tree {
        Value::Array(items) => Some(items.as_slice()),
        _ => None,
    }
}

// The value of the first member of the name, whatever the case of its letters.
#[tactic(auto, using(arm_value::proofs::JsonLemmas::member_nests))]
fn part_named<'a>(fields: &'a [Field], name: &str) -> Option<&'a Value>
    ensures tree { option_map (λ v. json v.now) result ≡ option_map tree_in
        (trees.part_named (chars name.now) (parts (pairs (map member fields.now)))) }
    ensures nests { MatchOption result (Unit {0})
        (λ v. nesting (json v.now) ≤ members_nesting (map member fields.now)) }
{
    for field in fields {
        if field.name.equals_ignore_case(name) {
            return Some(&field.value);
        }
    }
    None
}

/// A loop that gives an object a member: an array of the values of its input, one for each index.
#[derive(Drop)]
pub struct Copying<'a> {
    /// The name of the loop, and of the member.
    pub name: &'a Text,
    /// The tree of the count.
    pub count: &'a Value,
    /// The tree of the input.
    pub input: &'a Value,
}

// The loop of a name, by the other two members.
fn with_name<'a>(fields: &'a [Field], name: &'a Text) -> Option<Copying<'a>>
    ensures copy { option_map copying_of result ≡ trees.with_name name.now
        (trees.part_named (codes "count") (parts (pairs (map member fields.now))))
        (trees.part_named (codes "input") (parts (pairs (map member fields.now)))) }
    ensures nests { MatchOption result (Unit {0})
        (λ c. NestsBelow (suc (members_nesting (map member fields.now))) c) }
{
    match part_named(fields, "count") {
        Some(count) => match part_named(fields, "input") {
            Some(input) => Some(Copying { name, count, input }),
            None => None,
        },
        None => None,
    }
}

// The loop that members are, whose name is a text.
fn loop_of<'a>(fields: &'a [Field]) -> Option<Copying<'a>>
    ensures copy { option_map copying_of result
        ≡ trees.copy_by (parts (pairs (map member fields.now))) }
    ensures nests { MatchOption result (Unit {0})
        (λ c. NestsBelow (suc (members_nesting (map member fields.now))) c) }
{
    match part_named(fields, "name") {
        Some(name) => match text_of(name) {
            Some(name) => with_name(fields, name),
            None => None,
        },
        None => None,
    }
}

/// The loop that an object of exactly a name, a count and an input is.
pub fn copy_of<'a>(tree: &'a Value) -> Option<Copying<'a>>
    ensures copy { option_map copying_of result ≡ trees.copy_in (json tree.now) }
    ensures nests { MatchOption result (Unit {0}) (λ c. NestsBelow (nesting (json tree.now)) c) }
{
    match tree {
        Value::Object(fields) => if fields.len() == 3 {
            loop_of(fields.as_slice())
        } else {
            None
        },
        _ => None,
    }
}

// A count from 0 to 800.
fn count_of(value: &Value) -> Option<u32>
    ensures { result ≡ trees.count_of (json value.now) }
{
    match value {
        Value::Int(number) => if 0 <= *number && *number <= MAX_COPY_COUNT {
            Some(*number as u32)
        } else {
            None
        },
        _ => None,
    }
}

/// The count that the value is, if it is one. The value is dropped.
pub(crate) fn taken_count(value: Value) -> Option<u32>
    ensures { result ≡ trees.count_of (json value) }
{
    let count = count_of(&value);
    let_go(value);
    count
}

/// Copies of these loops after a nearest one.
pub(crate) fn loops_inside(
    alloc: Global,
    loops: &[Looping],
    nearest: Looping,
) -> Result<Vec<Looping>, OutOfMemory>
    ensures { IfOk result (λ ls. ls.items ≡ nearest ∷ loops.now) }
{
    let mut inside = Vec::new(alloc);
    inside.push(nearest)?;
    for looping in loops {
        let name = match &looping.name {
            Some(name) => Some(name.copy(alloc)?),
            None => None,
        };
        inside.push(Looping {
            name,
            index: looping.index,
            main: looping.main,
        })?;
    }
    Ok(inside)
}

/// The loops inside a loop of a name, which has the index 0.
pub fn loops_named(
    alloc: Global,
    loops: &[Looping],
    name: &Text,
) -> Result<Vec<Looping>, OutOfMemory>
    ensures { IfOk result (λ ls. ls.items ≡ looping_of name.now 0 ∷ loops.now) }
{
    let nearest = Looping {
        name: Some(name.copy(alloc)?),
        index: 0,
        main: false,
    };
    loops_inside(alloc, loops, nearest)
}

/// The loops inside the loop of an output, which has the index 0.
pub(crate) fn loops_in_output(alloc: Global, loops: &[Looping]) -> Result<Vec<Looping>, OutOfMemory>
    ensures { IfOk result (λ ls. ls.items ≡ output_loop 0 ∷ loops.now) }
{
    let nearest = Looping {
        name: None,
        index: 0,
        main: true,
    };
    loops_inside(alloc, loops, nearest)
}

/// Lets the nearest loop be at the index.
pub fn turn_to(loops: &mut Vec<Looping>, index: u32)
    requires { 0 < length loops.old.items }
    ensures { (nearest : Looping) (around : List Looping)
        → loops.old.items ≡ nearest ∷ around
        → loops.new.items ≡ record nearest { index = index } ∷ around }
{
    loops[0].index = index;
}
