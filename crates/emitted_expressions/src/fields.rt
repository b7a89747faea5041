//! What names, fields of resources and outputs of modules become.
ghost use Rattle.std.specs.Prelude.{◌≡◌, ℕ, List};
ghost use Rattle.arm_expr.specs.Tree.{Tree, text as text_tree};
ghost use Rattle.bicep_resolved.specs.View.{property_of};
ghost use Rattle.bicep_meaning.specs.Files.{symbol_name, type_of};
ghost use Rattle.emitted_parts.specs.Emitted.{Frame, parameter_of, properties_of, state_member_of};
ghost use Rattle.emitted_parts.specs.Built.{Is, IsText};
ghost use Rattle.emitted_expressions.specs.Sight.{AreFrames, frames_of};
ghost use Rattle.emitted_expressions.specs.Values as spec;

use crate::declarations::Declarations;
use crate::turns::{Turn, index_of, item_of};
use arm_expr::Expr;
use arm_value::{OutOfMemory, Text};
use bicep_resolved::{Field, Meaning, Property, Target};
use emitted_parts::calls::call_one;
use emitted_parts::literals::{no_value, text};
use emitted_parts::states::{module_output, properties, state_member};
use emitted_parts::{lacks, letting_go};
use std::alloc::Global;

fn parameter<K: Declarations>(alloc: Global, around: &K, number: usize) -> Result<Expr, OutOfMemory>
    ensures { Is (parameter_of (symbol_name (K.sight around.now).file number)) result }
{
    match around.symbol(number) {
        Some(name) => call_one(alloc, "parameters", text(alloc, name)),
        None => no_value(alloc),
    }
}

/// What a name becomes that is no resource and no module.
pub fn named<K: Declarations>(
    alloc: Global,
    around: &K,
    meaning: Meaning,
    turns: &[Turn],
) -> Result<Expr, OutOfMemory>
    ensures { Is (spec.named (K.sight around.now) meaning (frames_of turns.now)) result }
{
    match meaning {
        Meaning::Parameter(number) => parameter(alloc, around, number),
        Meaning::Variable(number) => around.variable(alloc, number),
        Meaning::Item(number) => item_of(alloc, turns, number),
        Meaning::Index(number) => index_of(alloc, turns, number),
    }
}

fn owned_text(given: Result<Text, OutOfMemory>) -> Result<Expr, OutOfMemory>
    ensures { (t : List ℕ) → IsText t given → Is (text_tree t) result }
{
    match given {
        Ok(characters) => Ok(Expr::Text(characters)),
        Err(error) => Err(error),
    }
}

fn state<K: Declarations>(
    alloc: Global,
    around: &K,
    number: usize,
    id: Result<Expr, OutOfMemory>,
) -> Result<Expr, OutOfMemory>
    ensures { (a : Tree) → Is a id → Is (properties_of a (type_of (K.sight around.now).file number).version) result }
{
    match around.version(alloc, number) {
        Ok(version) => properties(alloc, id, &version),
        Err(_) => lacks(id),
    }
}

fn member_of_state<K: Declarations>(
    alloc: Global,
    around: &K,
    number: usize,
    id: Result<Expr, OutOfMemory>,
    name: &Text,
) -> Result<Expr, OutOfMemory>
    ensures { (a : Tree) → Is a id
        → Is (state_member_of a (type_of (K.sight around.now).file number).version name.now) result }
{
    match around.version(alloc, number) {
        Ok(version) => state_member(alloc, id, &version, name),
        Err(_) => lacks(id),
    }
}

fn field_within<K: Declarations>(
    alloc: Global,
    around: &K,
    number: usize,
    field: &Field,
    turns: &[Turn],
) -> Result<Expr, OutOfMemory>
    ensures { Is (spec.field (K.sight around.now) number field.now (frames_of turns.now)) result }
{
    match field {
        Field::Id => around.id(alloc, number, turns),
        Field::Name => around.name(alloc, number, turns),
        Field::Type => owned_text(around.kind(alloc, number)),
        Field::ApiVersion => owned_text(around.version(alloc, number)),
        Field::Properties => state(alloc, around, number, around.id(alloc, number, turns)),
        Field::Outputs => no_value(alloc),
        Field::Other(name) => {
            member_of_state(alloc, around, number, around.id(alloc, number, turns), name)
        }
    }
}

/// What a field of a resource or a module becomes, with the loop around its declaration as it was built.
pub fn field_of<K: Declarations>(
    alloc: Global,
    around: &K,
    number: usize,
    field: &Field,
    turns: Result<Vec<Turn>, OutOfMemory>,
) -> Result<Expr, OutOfMemory>
    ensures { (fs : List Frame) → AreFrames fs turns
        → Is (spec.field (K.sight around.now) number field.now fs) result }
{
    match turns {
        Ok(turns) => {
            let expression = field_within(alloc, around, number, field, turns.as_slice());
            letting_go(expression, turns)
        }
        Err(error) => Err(error),
    }
}

fn output_within<K: Declarations>(
    alloc: Global,
    around: &K,
    target: Target,
    number: usize,
    turns: &[Turn],
) -> Result<Expr, OutOfMemory>
    ensures { Is (spec.output (K.sight around.now) target number (frames_of turns.now)) result }
{
    match around.output(target, number) {
        Some(output) => { module_output(alloc, output, around.name(alloc, target.number(), turns)) }
        None => no_value(alloc),
    }
}

/// What an output of a module becomes, with the loop around its declaration as it was built.
pub fn output_of<K: Declarations>(
    alloc: Global,
    around: &K,
    target: Target,
    number: usize,
    turns: Result<Vec<Turn>, OutOfMemory>,
) -> Result<Expr, OutOfMemory>
    ensures { (fs : List Frame) → AreFrames fs turns
        → Is (spec.output (K.sight around.now) target number fs) result }
{
    match turns {
        Ok(turns) => {
            let expression = output_within(alloc, around, target, number, turns.as_slice());
            letting_go(expression, turns)
        }
        Err(error) => Err(error),
    }
}

/// The name of a member as an expression.
#[tactic(auto, using(bicep_resolved::proofs::ViewLemmas::structs))]
pub fn name_of(alloc: Global, property: &Property) -> Result<Expr, OutOfMemory>
    ensures { Is (text_tree (property_of property.now).1) result }
{
    text(alloc, &property.name)
}
