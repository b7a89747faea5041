// The value of an output of a template, with its condition or its loop.
ghost use Rattle.std.specs.Prelude.{◌≡◌, ◌≤◌, option_map, IfOk, MatchOption};
ghost use Rattle.arm_value.specs.Json.{nesting};
ghost use Rattle.arm_value.specs.View.{json};
ghost use Rattle.reading.specs.Knowledge.{told};
ghost use Rattle.arm_env.specs.Answer.{outcome_told, gathered, Gives};
ghost use Rattle.arm_env.specs.Sight.{here};
ghost use Rattle.arm_env.specs.Kinds.{truth_of};
ghost use Rattle.arm_eval.specs.Outputs.{inputs, content_value, a_copy, where_true, output_value};
ghost use Rattle.arm_eval.specs.Trees.{tree_value};
ghost use Rattle.arm_eval.specs.Words.{content_of};

use crate::copying::{loops_in_output, turn_to};
use crate::tree::{counting, tree_value};
use crate::whole::{array_of, with_value};
use arm_env::entries::{Around, Entries};
use arm_env::stop::{Stop, let_go, stopped};
use arm_env::{stop, truth_of};
use arm_value::{Items, Value};
use std::alloc::Global;

/// What gives an output its value.
#[derive(Drop)]
pub enum Content<'a> {
    /// The tree of its member `value`.
    Tree(&'a Value),
    /// Its member `copy`: an array of the values of an input at each index below a count.
    Copy {
        /// The tree of the count, from 0 to 800.
        count: &'a Value,
        /// The tree of the input.
        input: &'a Value,
    },
}

// The value of a tree, or that it has none.
fn tree_outcome<'a, K: Entries>(
    alloc: Global,
    entries: &'a K,
    around: &Around,
    tree: &Value,
) -> Result<Option<Value>, Stop>
    ensures value { Gives (option_map json) result (outcome_told
        (told (K.known entries.now) (tree_value (json tree.now) (here around.now)))) }
    ensures nests { IfOk result (λ o. MatchOption o (Unit {0}) (λ v. nesting (json v) ≤ 100)) }
{
    stop::outcome(tree_value(alloc, entries, around, tree))
}

// The values of an input at each index below the count, where each has one. All are looked at.
fn inputs<'a, K: Entries>(
    alloc: Global,
    entries: &'a K,
    around: &Around,
    input: &Value,
    count: u32,
) -> Result<Option<Items>, Stop>
    ensures { Gives (λ o. o) result (outcome_told (gathered (λ vs. vs) (K.known entries.now)
        (inputs (json input.now) (here around.now) 0 count))) }
{
    let mut loops = loops_in_output(alloc, around.loops)?;
    let mut values = Some(Items::new());
    for index in 0..count {
        turn_to(&mut loops, index);
        let inside = Around {
            loops: loops.as_slice(),
            place: around.place,
        };
        match tree_outcome(alloc, entries, &inside, input) {
            Ok(value) => values = with_value(alloc, values, value)?,
            Err(stop) => return stopped(stop, (loops, values)),
        }
    }
    let_go(loops);
    Ok(values)
}

// The array of an output's loop.
fn copied<'a, K: Entries>(
    alloc: Global,
    entries: &'a K,
    around: &Around,
    count: &Value,
    input: &Value,
) -> Result<Value, Stop>
    ensures { Gives json result (told (K.known entries.now) (content_value
        (a_copy (record { count = json count.now; input = json input.now })) (here around.now))) }
{
    let count = counting(alloc, entries, around, count)?;
    let values = inputs(alloc, entries, around, input, count)?;
    array_of(values)
}

/// The value of an output where it is there: of its tree, or the array of its loop, which is a main
/// loop without a name.
pub fn content_value<'a, K: Entries>(
    alloc: Global,
    entries: &'a K,
    around: &Around,
    content: &Content,
) -> Result<Value, Stop>
    ensures { Gives json result
        (told (K.known entries.now) (content_value (content_of content.now) (here around.now))) }
{
    match content {
        Content::Tree(tree) => tree_value(alloc, entries, around, tree),
        Content::Copy { count, input } => copied(alloc, entries, around, count, input),
    }
}

// What is there of an output where its condition has this truth value.
fn where_true<'a, K: Entries>(
    alloc: Global,
    entries: &'a K,
    around: &Around,
    truth: Option<bool>,
    content: &Content,
) -> Result<Option<Value>, Stop>
    ensures { Gives (option_map json) result (told (K.known entries.now)
        (where_true truth (content_value (content_of content.now) (here around.now)))) }
{
    match truth {
        Some(true) => Ok(Some(content_value(alloc, entries, around, content)?)),
        Some(false) => Ok(None),
        None => Err(Stop::NoValue),
    }
}

// Which truth value the value is, if any. The value is dropped.
fn truth(value: Value) -> Option<bool>
    ensures { result ≡ truth_of (json value) }
{
    let truth = truth_of(&value);
    let_go(value);
    truth
}

/// The value of an output, or nothing where its condition leaves it away. A condition that has no
/// value, or that is neither true nor false, counts as an output without a value. An output without
/// a condition is there.
pub fn output_value<'a, K: Entries>(
    alloc: Global,
    entries: &'a K,
    around: &Around,
    condition: Option<&Value>,
    content: &Content,
) -> Result<Option<Value>, Stop>
    ensures { Gives (option_map json) result (told (K.known entries.now)
        (output_value (option_map (λ v. json v.now) condition.entry) (content_of content.now)
        (here around.now))) }
{
    match condition {
        Some(condition) => {
            let value = tree_value(alloc, entries, around, condition)?;
            where_true(alloc, entries, around, truth(value), content)
        }
        None => where_true(alloc, entries, around, Some(true), content),
    }
}
