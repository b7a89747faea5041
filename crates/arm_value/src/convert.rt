// Whether data is within a depth and has whole numbers, and the value that it then is.
ghost use Rattle.std.specs.Prelude.{◌≡◌, ◌≤◌, ◌++◌, None, IfOk, nat_le, decimal, chars};
ghost use Rattle.serde_json.specs.Data.{depth as data_depth, items_depth, members_depth};
ghost use Rattle.serde_json.specs.View.{view, items_view, members_view};
ghost use Rattle.arm_value.specs.Json.{pairs, row};
ghost use Rattle.arm_value.specs.View.{json};
ghost use Rattle.arm_value.specs.Pointer.{token};
ghost use Rattle.arm_value.specs.Reading.{data_of, row_data, pairs_data, not_whole, items_not_whole};
ghost use Rattle.arm_value.specs.Reading.{members_not_whole, below};

use crate::memory::OutOfMemory;
use crate::path::Path;
use crate::text::Text;
use crate::value::{Fields, Items, Value};
use serde_json::{Map, Value as Data};
use std::alloc::Global;

// Whether the data nests at most so deep.
#[cycle(within)]
pub fn is_within(data: &Data, limit: u32) -> bool
    ensures { result ≡ nat_le (data_depth (view «data».now)) limit }
{
    match data {
        Data::Null => true,
        Data::Bool(_) => true,
        Data::Number(_) => true,
        Data::String(_) => true,
        Data::Array(items) => limit > 0 && items_are_within(items, limit - 1),
        Data::Object(members) => limit > 0 && members_are_within(members, limit - 1),
    }
}

#[cycle(within)]
fn items_are_within(items: &Vec<Data>, limit: u32) -> bool
    ensures { result ≡ nat_le (items_depth (items_view items.now.items)) limit }
{
    for item in items {
        if !is_within(item, limit) {
            return false;
        }
    }
    true
}

#[cycle(within)]
fn members_are_within(members: &Map<String, Data>, limit: u32) -> bool
    ensures { result ≡ nat_le (members_depth (members_view members.now.entries)) limit }
{
    for (_, member) in members.iter() {
        if !is_within(member, limit) {
            return false;
        }
    }
    true
}

// The path of the number at a rest of a path below an item, or below a member.
fn item_path(alloc: Global, place: usize, rest: &Path) -> Result<Path, OutOfMemory>
    ensures { IfOk result (λ p. p ≡ below (decimal place) rest.now) }
{
    Path::root(alloc).item(alloc, place)?.join(alloc, rest)
}

fn member_path(alloc: Global, name: &str, rest: &Path) -> Result<Path, OutOfMemory>
    ensures { IfOk result (λ p. p ≡ below (token (chars name.now)) rest.now) }
{
    Path::root(alloc).member(alloc, name)?.join(alloc, rest)
}

// The path of the first number that is no `i64`.
#[cycle(whole)]
pub fn find_not_whole(alloc: Global, data: &Data) -> Result<Option<Path>, OutOfMemory>
    ensures { IfOk result (λ p. p ≡ not_whole (view «data».now)) }
{
    match data {
        Data::Null => Ok(None),
        Data::Bool(_) => Ok(None),
        Data::Number(n) => if n.as_i64().is_some() {
            Ok(None)
        } else {
            Ok(Some(Path::root(alloc)))
        },
        Data::String(_) => Ok(None),
        Data::Array(items) => Ok(find_in_items(alloc, items)?),
        Data::Object(members) => Ok(find_in_members(alloc, members)?),
    }
}

#[cycle(whole)]
fn find_in_items(alloc: Global, items: &Vec<Data>) -> Result<Option<Path>, OutOfMemory>
    ensures { IfOk result (λ p. p ≡ items_not_whole 0 (items_view items.now.items)) }
{
    for (i, item) in items.iter().enumerate() {
        if let Some(rest) = find_not_whole(alloc, item)? {
            return Ok(Some(item_path(alloc, i, &rest)?));
        }
    }
    Ok(None)
}

#[cycle(whole)]
fn find_in_members(alloc: Global, members: &Map<String, Data>) -> Result<Option<Path>, OutOfMemory>
    ensures { IfOk result (λ p. p ≡ members_not_whole (members_view members.now.entries)) }
{
    for (name, member) in members.iter() {
        if let Some(rest) = find_not_whole(alloc, member)? {
            return Ok(Some(member_path(alloc, name.as_str(), &rest)?));
        }
    }
    Ok(None)
}

// The value of data whose numbers are whole. Its texts are moved, and not copied.
#[cycle(convert)]
pub fn convert(alloc: Global, data: Data) -> Result<Value, OutOfMemory>
    requires whole { not_whole (view «data») ≡ None }
    requires nests { data_depth (view «data») ≤ 120 }
    ensures { IfOk result (λ v. data_of (json v) ≡ view «data») }
{
    match data {
        Data::Null => Ok(Value::Null),
        Data::Bool(b) => Ok(Value::Bool(b)),
        Data::Number(n) => match n.as_i64() {
            Some(z) => Ok(Value::Int(z)),
            None => unreachable!(),
        },
        Data::String(text) => Ok(Value::Text(Text::from_string(text))),
        Data::Array(items) => Ok(Value::Array(convert_items(alloc, items)?)),
        Data::Object(members) => Ok(Value::Object(convert_members(alloc, members)?)),
    }
}

#[cycle(convert)]
fn convert_items(alloc: Global, items: Vec<Data>) -> Result<Items, OutOfMemory>
    requires whole { items_not_whole 0 (items_view items.items) ≡ None }
    requires nests { items_depth (items_view items.items) ≤ 119 }
    ensures { IfOk result (λ v. row_data (row v) ≡ items_view items.items) }
{
    let mut found = Items::new();
    for item in items {
        found.push(alloc, convert(alloc, item)?)?;
    }
    Ok(found)
}

#[cycle(convert)]
fn convert_members(alloc: Global, members: Map<String, Data>) -> Result<Fields, OutOfMemory>
    requires whole { members_not_whole (members_view members.entries) ≡ None }
    requires nests { members_depth (members_view members.entries) ≤ 119 }
    ensures { IfOk result (λ v. pairs_data (pairs v) ≡ members_view members.entries) }
{
    let mut found = Fields::new();
    for (name, member) in members {
        let value = convert(alloc, member)?;
        found.push_last(alloc, Text::from_string(name), value)?;
    }
    Ok(found)
}
