// The indices of loops.
ghost use Rattle.std.specs.Prelude.{◌≡◌, ◌+ℤ◌, pos, map, option_map};
ghost use Rattle.arm_value.specs.View.{json};
ghost use Rattle.function_numbers.specs.Numbers.{within};
ghost use Rattle.arm_env.specs.Loop.{is_named, index_named, main_index, nearest_index, own_index};
ghost use Rattle.arm_env.specs.Loop.{shifted, index_by, index_from, copy_index};

use crate::env::Looping;
use arm_value::{Text, Value};

fn is_named(looping: &Looping, name: &Text) -> bool
    ensures { result ≡ is_named name.now looping.now.name }
{
    match &looping.name {
        Some(known) => known.equals_ignore_case(name.as_str()),
        None => false,
    }
}

fn index_named(loops: &[Looping], name: &Text) -> Option<u32>
    ensures { result ≡ index_named name.now loops.now }
{
    for looping in loops {
        if is_named(looping, name) {
            return Some(looping.index);
        }
    }
    None
}

fn main_index(loops: &[Looping]) -> Option<u32>
    ensures { result ≡ main_index loops.now }
{
    for looping in loops {
        if looping.main {
            return Some(looping.index);
        }
    }
    None
}

fn nearest_index(loops: &[Looping]) -> Option<u32>
    ensures { result ≡ nearest_index loops.now }
{
    match loops {
        [nearest, ..] => Some(nearest.index),
        [] => None,
    }
}

fn own_index(loops: &[Looping]) -> Option<u32>
    ensures { result ≡ own_index loops.now }
{
    match main_index(loops) {
        Some(index) => Some(index),
        None => nearest_index(loops),
    }
}

// The sum, where it has at most 64 bits.
#[tactic(auto, using(function_numbers::proofs::NumberLemmas::within_is))]
fn sum(index: i64, offset: i64) -> Option<i64>
    ensures { result ≡ within (index +ℤ offset) }
{
    index.checked_add(offset)
}

fn shifted(index: Option<u32>, offset: i64) -> Option<Value>
    ensures { option_map json result ≡ shifted index offset }
{
    match index {
        Some(index) => match sum(i64::from(index), offset) {
            Some(sum) => Some(Value::Int(sum)),
            None => None,
        },
        None => None,
    }
}

fn index_by(loops: &[Looping], arg: &Value) -> Option<Value>
    ensures { option_map json result ≡ index_by loops.now (json arg.now) }
{
    match arg {
        Value::Text(name) => shifted(index_named(loops, name), 0),
        Value::Int(offset) => shifted(own_index(loops), *offset),
        _ => None,
    }
}

fn index_from(loops: &[Looping], name: &Value, offset: &Value) -> Option<Value>
    ensures { option_map json result ≡ index_from loops.now (json name.now) (json offset.now) }
{
    match name {
        Value::Text(name) => match offset {
            Value::Int(offset) => shifted(index_named(loops, name), *offset),
            _ => None,
        },
        _ => None,
    }
}

/// `copyIndex`: the index of a loop, by its name or the main one, and an offset.
pub fn copy_index(loops: &[Looping], args: &[Value]) -> Option<Value>
    ensures { option_map json result ≡ copy_index loops.now (map json args.now) }
{
    match args {
        [] => shifted(own_index(loops), 0),
        [arg] => index_by(loops, arg),
        [name, offset] => index_from(loops, name, offset),
        _ => None,
    }
}
