//! Loops around an expression.
ghost use Rattle.std.specs.Prelude.{◌≡◌, chars, length, pos, Some, slice_get};
ghost use Rattle.arm_value.specs.Json.{int};
ghost use Rattle.arm_value.specs.View.{json};
ghost use Rattle.arm_env.specs.Part.{part_of};
ghost use Rattle.function_lists.specs.Sizes.{size_of};
ghost use Rattle.bicep_meaning.specs.Rows.{few, runs_of};
ghost use Rattle.bicep_outcomes.specs.Outcomes.{IsFound, Then, IsElement, Lacks, IsCopy, IsInner, IsItem};
ghost use Rattle.bicep_outcomes.specs.Outcomes.{IsIndex, value_and_runs, json_first};

use crate::accesses::indexed;
use crate::joins::{pair, push, same, stopped};
use crate::stop::Stop;
use arm_env::held::part_of;
use arm_value::Value;
use bicep_tree::Indexing;
use foundation::limits::MAX_RESOURCES;
use std::alloc::Global;

/// One run of a loop around an expression: its item and its index, or why there is none.
#[derive(Drop)]
pub struct Turn {
    /// The item.
    pub item: Result<Value, Stop>,
    /// The index.
    pub index: Result<Value, Stop>,
}

fn count(text: &str) -> usize
    ensures { result ≡ length (chars text.now) }
{
    text.chars().count()
}

#[tactic(auto, using(function_numbers::proofs::RowLemmas::rows_and_pairs))]
fn size_of(value: &Value) -> Option<usize>
    ensures { result ≡ size_of (json value.now) }
{
    match value {
        Value::Text(text) => Some(count(text.as_str())),
        Value::Array(items) => Some(items.len()),
        Value::Object(fields) => Some(fields.len()),
        _ => None,
    }
}

fn few(count: usize) -> Option<u32>
    ensures { result ≡ few count }
{
    if count <= MAX_RESOURCES {
        Some(count as u32)
    } else {
        None
    }
}

fn runs_of(value: &Value) -> Option<u32>
    ensures { result ≡ runs_of (json value.now) }
{
    match size_of(value) {
        Some(count) => few(count),
        None => None,
    }
}

/// How often a loop over the value runs, and the value.
pub fn counted(over: Result<Value, Stop>) -> Result<(Value, u32), Stop>
    ensures { Then json json_first value_and_runs over result }
{
    match over {
        Ok(value) => match runs_of(&value) {
            Some(count) => Ok((value, count)),
            None => stopped(Stop::NoValue, value),
        },
        Err(stop) => Err(stop),
    }
}

fn item_at(alloc: Global, over: &Value, index: &Value) -> Result<Value, Stop>
    ensures { IsFound json (part_of (json over.now) (json index.now)) result }
{
    match part_of(over, index) {
        Some(item) => Ok(item.copy(alloc)?),
        None => Err(Stop::NoValue),
    }
}

/// The run at an index of a loop over a value.
pub fn run_at(alloc: Global, over: &Value, index: u32) -> Turn
    ensures item { IsFound json (part_of (json over.now) (int (pos index))) result.item }
    ensures index { IsFound json (Some (int (pos index))) result.index }
{
    let index = Value::Int(index as i64);
    let item = item_at(alloc, over, &index);
    Turn {
        item,
        index: Ok(index),
    }
}

/// The run of a loop over these at an index that may have no value.
pub fn element(alloc: Global, items: Result<Value, Stop>, index: Result<Value, Stop>) -> Turn
    ensures { IsElement items index result }
{
    let copy = same(alloc, &index);
    let item = indexed(alloc, Indexing::Plain, pair(items, copy));
    Turn { item, index }
}

fn copy_of(alloc: Global, turn: &Turn) -> Turn
    ensures { IsCopy turn.now result }
{
    Turn {
        item: same(alloc, &turn.item),
        index: same(alloc, &turn.index),
    }
}

/// Copies of the runs, with one inside them all.
pub fn within(alloc: Global, turn: Turn, turns: &[Turn]) -> Result<Vec<Turn>, Stop>
    ensures { Lacks (λ v. IsInner turn turns.now v.items) result }
{
    let mut inner = push(Vec::new(alloc), turn)?;
    for outer in turns {
        match push(inner, copy_of(alloc, outer)) {
            Ok(more) => inner = more,
            Err(stop) => return Err(stop),
        }
    }
    Ok(inner)
}

/// A copy of the item of a loop that is so many loops outwards.
pub fn item_of(alloc: Global, turns: &[Turn], outwards: usize) -> Result<Value, Stop>
    ensures { IsItem (slice_get turns.now outwards) result }
{
    match turns.get(outwards) {
        Some(turn) => same(alloc, &turn.item),
        None => Err(Stop::NoValue),
    }
}

/// A copy of the index of a loop that is so many loops outwards.
pub fn index_of(alloc: Global, turns: &[Turn], outwards: usize) -> Result<Value, Stop>
    ensures { IsIndex (slice_get turns.now outwards) result }
{
    match turns.get(outwards) {
        Some(turn) => same(alloc, &turn.index),
        None => Err(Stop::NoValue),
    }
}
