//! Parts of values.
ghost use Rattle.std.specs.Prelude.{◌≡◌, ◌∷◌, [], map, chars, option_map, IfOk, IfErr};
ghost use Rattle.arm_value.specs.Json.{Json, text};
ghost use Rattle.arm_value.specs.Look.{look};
ghost use Rattle.arm_value.specs.View.{json};
ghost use Rattle.arm_env.specs.Part.{part_of};
ghost use Rattle.function_lists.specs.Members as members;
ghost use Rattle.bicep_meaning.specs.Rows.{member_value, index_value};
ghost use Rattle.bicep_outcomes.specs.Outcomes.{IsFound, Then, both_json};

use crate::joins::{made, stopped};
use crate::stop::Stop;
use arm_env::held::part_of;
use arm_env::stop::let_go;
use arm_value::{OutOfMemory, Text, Value};
use bicep_resolved::Selector;
use bicep_tree::Indexing;
use function_lists::try_get;
use std::alloc::Global;

fn copy_of(alloc: Global, value: Option<&Value>) -> Result<Option<Value>, OutOfMemory>
    ensures { IfOk result (λ v. option_map json v ≡ option_map (λ x. json x.now) value.entry) }
{
    match value {
        Some(value) => Ok(Some(value.copy(alloc)?)),
        None => Ok(None),
    }
}

// The part at a place: none where it is missing.
fn plain_part(alloc: Global, parts: (Value, Value)) -> Result<Option<Value>, OutOfMemory>
    ensures { IfOk result (λ v. option_map json v ≡ part_of (json parts.0) (json parts.1)) }
{
    let part = copy_of(alloc, part_of(&parts.0, &parts.1));
    let_go(parts);
    part
}

// The part at a place: null where it is missing.
fn safe_part(alloc: Global, parts: (Value, Value)) -> Result<Option<Value>, OutOfMemory>
    ensures { IfOk result (λ v. option_map json v ≡ members.part_of (json parts.0) (json parts.1)) }
{
    let (whole, place) = parts;
    let args = [whole, place];
    let part = try_get(alloc, &args);
    let_go(args);
    part
}

fn index_of(
    alloc: Global,
    how: Indexing,
    parts: (Value, Value),
) -> Result<Option<Value>, OutOfMemory>
    ensures { IfOk result (λ v. option_map json v ≡ index_value how (json parts.0) (json parts.1)) }
{
    match how {
        Indexing::Plain => plain_part(alloc, parts),
        Indexing::Safe => safe_part(alloc, parts),
    }
}

/// `[i]` and `[?i]`.
pub fn indexed(
    alloc: Global,
    how: Indexing,
    parts: Result<(Value, Value), Stop>,
) -> Result<Value, Stop>
    ensures { Then both_json json (λ q. index_value how q.0 q.1) parts result }
{
    match parts {
        Ok(parts) => made(index_of(alloc, how, parts)),
        Err(stop) => Err(stop),
    }
}

fn named(alloc: Global, value: Value, name: &Text) -> Result<(Value, Value), Stop>
    ensures ok { IfOk result (λ q. both_json q ≡ (json value, text name.now)) }
    ensures stop { IfErr result (λ s. s ≡ Stop.OutOfMemory) }
{
    match name.copy(alloc) {
        Ok(name) => Ok((value, Value::Text(name))),
        Err(_) => stopped(Stop::OutOfMemory, value),
    }
}

fn member_of(alloc: Global, how: Selector, value: Value, name: &Text) -> Result<Value, Stop>
    ensures { IsFound json (member_value how (json value) (text name.now)) result }
{
    let parts = named(alloc, value, name)?;
    match how {
        Selector::Plain => made(plain_part(alloc, parts)),
        Selector::Safe => made(safe_part(alloc, parts)),
    }
}

/// `.n` and `.?n`.
pub fn member(
    alloc: Global,
    how: Selector,
    value: Result<Value, Stop>,
    name: &Text,
) -> Result<Value, Stop>
    ensures { Then json json (λ j. member_value how j (text name.now)) value result }
{
    match value {
        Ok(value) => member_of(alloc, how, value, name),
        Err(stop) => Err(stop),
    }
}

/// A copy of a member of a state.
pub fn looked<'a>(alloc: Global, state: Result<&'a Value, Stop>, name: &str) -> Result<Value, Stop>
    ensures { Then (λ v. json v.now) json (look (chars name.now)) state.entry result }
{
    match state {
        Ok(state) => made(copy_of(alloc, state.look(name))),
        Err(stop) => Err(stop),
    }
}
