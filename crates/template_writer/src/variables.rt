// The variables of a template as the members of an object.

ghost use Rattle.std.specs.Prelude.{◌≡◌, ◌≤◌, ◌++◌, ◌∷◌, [], codes, IfOk};
ghost use Rattle.arm_value.specs.Json.{nesting, items_nesting, members_nesting, IsInOrder};
ghost use Rattle.arm_value.specs.View.{json};
ghost use Rattle.template_written.specs.Slots.{NestsWithin, array_unless_empty};
ghost use Rattle.template_written.specs.Parts.{plain_variables, variable_loops, named_loop, written_variables};

use crate::lists::{with_item, with_member};
use crate::parts::named_loop;
use crate::slots::put_items;
use arm_value::{Fields, Items, ListOf, OutOfMemory, Text, Value};
use std::alloc::Global;
use template_parts::{Content, Variable, run_out};

// The members with a copy of one more, whose name comes after all the others.
fn with_copy(
    alloc: Global,
    members: Fields,
    name: &Text,
    value: &Value,
) -> Result<Fields, OutOfMemory>
    requires nests { nesting (json value.now) ≤ 119 }
    requires last { IsInOrder (members ++ (name.now, json value.now) ∷ []) }
    ensures { IfOk result (λ ms. ms ≡ members ++ (name.now, json value.now) ∷ []) }
{
    match value.copy(alloc) {
        Ok(value) => with_member(alloc, members, name, value),
        Err(_) => run_out(members),
    }
}

// The members of the variables that no loop gives.
fn write_plain(alloc: Global, variables: &ListOf<Variable>) -> Result<Fields, OutOfMemory>
    requires order { IsInOrder (plain_variables variables.now) }
    requires nests { members_nesting (plain_variables variables.now) ≤ 119 }
    ensures { IfOk result (λ ms. ms ≡ plain_variables variables.now) }
{
    let mut members = Fields::new();
    for variable in variables.as_slice() {
        match &variable.content {
            Content::Value(value) => {
                members = with_copy(alloc, members, &variable.name, value)?;
            }
            Content::Copy(_, _) => {}
        }
    }
    Ok(members)
}

// The items with one more loop at their end.
fn with_loop(
    alloc: Global,
    loops: Items,
    name: &Text,
    count: &Value,
    input: &Value,
) -> Result<Items, OutOfMemory>
    requires { nesting (named_loop name.now (json count.now) (json input.now)) ≤ 119 }
    ensures { IfOk result (λ js. js ≡ loops ++ named_loop name.now (json count.now) (json input.now) ∷ []) }
{
    match name.copy(alloc) {
        Ok(name) => match named_loop(alloc, name, count, input) {
            Ok(made) => with_item(alloc, loops, made),
            Err(_) => run_out(loops),
        },
        Err(_) => run_out(loops),
    }
}

// The loops that give the other variables.
fn write_loops(alloc: Global, variables: &ListOf<Variable>) -> Result<Items, OutOfMemory>
    requires { items_nesting (variable_loops variables.now) ≤ 119 }
    ensures { IfOk result (λ js. js ≡ variable_loops variables.now) }
{
    let mut loops = Items::new();
    for variable in variables.as_slice() {
        match &variable.content {
            Content::Value(_) => {}
            Content::Copy(count, input) => {
                loops = with_loop(alloc, loops, &variable.name, count, input)?;
            }
        }
    }
    Ok(loops)
}

/// The members that the variables are: each that no loop gives under its name, and the loops under `copy`.
pub fn write_variables(alloc: Global, variables: &ListOf<Variable>) -> Result<Fields, OutOfMemory>
    requires order { IsInOrder (plain_variables variables.now) }
    requires plain { members_nesting (plain_variables variables.now) ≤ 119 }
    requires loops { NestsWithin 119 (array_unless_empty (variable_loops variables.now)) }
    ensures { IfOk result (λ ms. ms ≡ written_variables variables.now) }
{
    let members = write_plain(alloc, variables)?;
    match write_loops(alloc, variables) {
        Ok(loops) => put_items(alloc, members, "copy", loops),
        Err(_) => run_out(members),
    }
}
