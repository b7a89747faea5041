// What an expression gives to an access to a part of it.
ghost use Rattle.std.specs.Prelude.{◌≡◌, ◌∷◌, [], true, chars, Some, None, map, option_map, IfOk};
ghost use Rattle.std.specs.Prelude.{MatchOption, ◌≤◌, codes, nat_le, if◌then◌else◌};
ghost use Rattle.arm_value.specs.Json.{Json, nesting, put, put_each, text, array, object, row};
ghost use Rattle.arm_value.specs.Json.{pairs};
ghost use Rattle.arm_value.specs.Look.{fold};
ghost use Rattle.arm_value.specs.View.{json, member};
ghost use Rattle.reading.specs.Reading.{Reading, continued, pure, done};
ghost use Rattle.reading.specs.Knowledge.{finished};
ghost use Rattle.arm_env.specs.Part.{item_at, part_of, kept};
ghost use Rattle.arm_env.specs.Object.{object_of};
ghost use Rattle.arm_env.specs.Answer.{plain_told, Gives};
ghost use Rattle.arm_env.specs.Sight.{held_of};

use crate::stop::{Stop, let_go, stopped};
use arm_ids::Key;
use arm_value::{Fields, Items, Text, Value};
use foundation::limits::MAX_VALUE_NESTING;
use std::alloc::Global;

/// What an expression gives to an access to a part of it.
#[derive(Drop)]
pub enum Held<'a> {
    /// A value that was made.
    Owned(Value),
    /// A value of the environment, or a part of one.
    Lent(&'a Value),
    /// A whole state.
    Whole(&'a Value),
    /// The nested deployment at a key.
    Deployment(Key),
    /// The outputs of the nested deployment at a key.
    Outputs(Key),
    /// The output of a name of a nested deployment.
    Output {
        /// The key of the deployment.
        key: Key,
        /// The name of the output, as it is spelled.
        name: Text,
    },
}

/// The value; no value where it nests deeper than 100.
pub fn keep(value: Value) -> Result<Value, Stop>
    ensures { Gives json result (finished (kept (json value))) }
{
    if value.nesting() <= MAX_VALUE_NESTING {
        Ok(value)
    } else {
        stopped(Stop::NoValue, value)
    }
}

/// A copy of the value; no value where it nests deeper than 100.
pub fn keep_copy(alloc: Global, value: &Value) -> Result<Value, Stop>
    ensures { Gives json result (finished (kept (json value.now))) }
{
    if value.nesting() <= MAX_VALUE_NESTING {
        Ok(value.copy(alloc)?)
    } else {
        Err(Stop::NoValue)
    }
}

// The value, for an access to a part of it; no value where it nests deeper than 100.
fn own_value<'a>(value: Value) -> Result<Held<'a>, Stop>
    ensures { Gives held_of result (plain_told (Some (json value))) }
{
    if value.nesting() <= MAX_VALUE_NESTING {
        Ok(Held::Owned(value))
    } else {
        stopped(Stop::NoValue, value)
    }
}

/// A value that was made, for an access to a part of it; no value where there is none, or where it
/// nests deeper than 100.
pub fn own<'a>(value: Option<Value>) -> Result<Held<'a>, Stop>
    ensures { Gives held_of result (plain_told (option_map json value)) }
{
    match value {
        Some(value) => own_value(value),
        None => Err(Stop::NoValue),
    }
}

/// A value of the environment, for an access to a part of it; no value where there is none, or where
/// it nests deeper than 100.
pub fn lend<'a>(value: Option<&'a Value>) -> Result<Held<'a>, Stop>
    ensures { Gives held_of result (plain_told (option_map (λ v. json v.now) value.entry)) }
{
    match value {
        Some(value) => if value.nesting() <= MAX_VALUE_NESTING {
            Ok(Held::Lent(value))
        } else {
            Err(Stop::NoValue)
        },
        None => Err(Stop::NoValue),
    }
}

fn item_at(items: &Items, place: i64) -> Option<&Value>
    ensures { option_map (λ v. json v.now) result ≡ item_at place items.now }
{
    if place < 0 {
        return None;
    }
    items.at(place as usize)
}

#[tactic(auto, using(function_numbers::proofs::RowLemmas::items_of_row))]
fn item_in<'a>(items: &'a Items, index: &Value) -> Option<&'a Value>
    ensures { option_map (λ v. json v.now) result
        ≡ part_of (array (row items.now)) (json index.now) }
{
    match index {
        Value::Int(place) => item_at(items, *place),
        _ => None,
    }
}

fn member_in<'a>(fields: &'a Fields, index: &Value) -> Option<&'a Value>
    ensures { option_map (λ v. json v.now) result
        ≡ part_of (object (pairs fields.now)) (json index.now) }
{
    match index {
        Value::Text(name) => fields.look(name.as_str()),
        _ => None,
    }
}

/// The member of an object by a name, or the item of an array at a place.
pub fn part_of<'a>(value: &'a Value, index: &Value) -> Option<&'a Value>
    ensures { option_map (λ v. json v.now) result ≡ part_of (json value.now) (json index.now) }
{
    match value {
        Value::Array(items) => item_in(items, index),
        Value::Object(fields) => member_in(fields, index),
        _ => None,
    }
}

// A copy of a value, for an access to a part of it; no value where there is none, or where it nests
// deeper than 100.
fn own_copy<'a>(alloc: Global, value: Option<&Value>) -> Result<Held<'a>, Stop>
    ensures { Gives held_of result (plain_told (option_map (λ v. json v.now) value.entry)) }
{
    match value {
        Some(value) => own_value(value.copy(alloc)?),
        None => Err(Stop::NoValue),
    }
}

/// A copy of a part of a value that was made; no value where it has no such part, or where the part
/// nests deeper than 100.
pub fn own_part<'a>(alloc: Global, value: Value, index: &Value) -> Result<Held<'a>, Stop>
    ensures { Gives held_of result (plain_told (part_of (json value) (json index.now))) }
{
    let part = own_copy(alloc, part_of(&value, index));
    let_go(value);
    part
}
