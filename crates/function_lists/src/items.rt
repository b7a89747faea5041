// The items of arrays.
ghost use Rattle.std.specs.Prelude.{◌≡◌, ◌++◌, ◌∷◌, [], Some, List, Option, take, map, option_map, option_and_then};
ghost use Rattle.std.specs.Prelude.{IfOk, OnOk, MatchOption, if◌then◌else◌, is_ok};
ghost use Rattle.std.specs.List.{list_all, filter};
ghost use Rattle.arm_value.specs.Json.{Json};
ghost use Rattle.arm_value.specs.View.{json};
ghost use Rattle.function_numbers.specs.Kinds.{items_of};
ghost use Rattle.function_lists.specs.Values.{array_of};
ghost use Rattle.function_lists.specs.Index.{IsIndexOf};
ghost use Rattle.function_lists.specs.Items as row;
ghost use Rattle.function_lists.specs.Items.{as_array, joined, is_among, distinct, is_item_of, or_found};
ghost use Rattle.function_lists.specs.Items.{here, first_place, last_place};
ghost use Rattle.arm_value.specs.Kinds.{is_array};

use crate::index::{add, has, texts_of};
use crate::values::{array_of, copies};
use arm_value::{Items, OutOfMemory, Value};
use function_numbers::kinds::items_of;
use std::alloc::Global;
use std::collections::BTreeSet;

fn alone(alloc: Global, value: &Value) -> Result<Option<Value>, OutOfMemory>
    ensures { IfOk result (λ array. option_map json array ≡ array_of (json value.now ∷ [])) }
{
    let mut values = Vec::new(alloc);
    values.push(value.copy(alloc)?)?;
    Ok(array_of(values))
}

fn as_array(alloc: Global, value: &Value) -> Result<Option<Value>, OutOfMemory>
    ensures { IfOk result (λ array. option_map json array ≡ as_array (json value.now)) }
{
    match value {
        Value::Array(items) => Ok(Some(Value::Array(items.copy(alloc)?))),
        _ => alone(alloc, value),
    }
}

/// `array`: an array itself, else the array of the value alone; none where that would nest above 120.
pub fn to_array(alloc: Global, args: &[Value]) -> Result<Option<Value>, OutOfMemory>
    ensures { IfOk result (λ value. option_map json value ≡ row.to_array (map json args.now)) }
{
    match args {
        [value] => as_array(alloc, value),
        _ => Ok(None),
    }
}

/// `createArray`: the array of the arguments; none where it would nest above 120.
pub fn create_array(alloc: Global, args: &[Value]) -> Result<Option<Value>, OutOfMemory>
    ensures { IfOk result (λ value. option_map json value ≡ row.create_array (map json args.now)) }
{
    let values = copies(alloc, args)?;
    Ok(array_of(values))
}

// Puts copies of the values last.
fn add_copies(alloc: Global, list: &mut Vec<Value>, values: &[Value]) -> Result<(), OutOfMemory>
    ensures { OnOk result (map json list.new.items ≡ map json list.old.items ++ map json values.now) }
{
    for value in values {
        list.push(value.copy(alloc)?)?;
    }
    Ok(())
}

/// The items of all these arrays, one after another; none where one is no array.
pub fn joined(alloc: Global, arrays: &[Value]) -> Result<Option<Vec<Value>>, OutOfMemory>
    ensures { IfOk result (λ all. option_map (λ v. map json v.items) all ≡ joined (map json arrays.now)) }
{
    let mut all = Vec::new(alloc);
    for array in arrays {
        match items_of(array) {
            Some(items) => add_copies(alloc, &mut all, items.as_slice())?,
            None => return Ok(None),
        }
    }
    Ok(Some(all))
}

/// `concat` of arrays: their items in one array.
pub fn concat_arrays(alloc: Global, args: &[Value]) -> Result<Option<Value>, OutOfMemory>
    ensures { IfOk result (λ value. option_map json value ≡ row.concat_arrays (map json args.now)) }
{
    match joined(alloc, args)? {
        Some(all) => Ok(array_of(all)),
        None => Ok(None),
    }
}

fn flattened(alloc: Global, value: &Value) -> Result<Option<Value>, OutOfMemory>
    ensures { IfOk result (λ array. option_map json array ≡ row.flatten (json value.now ∷ [])) }
{
    match items_of(value) {
        Some(items) => concat_arrays(alloc, items.as_slice()),
        None => Ok(None),
    }
}

/// `flatten`: the items of an array's arrays in one array, one level alone.
pub fn flatten(alloc: Global, args: &[Value]) -> Result<Option<Value>, OutOfMemory>
    ensures { IfOk result (λ value. option_map json value ≡ row.flatten (map json args.now)) }
{
    match args {
        [value] => flattened(alloc, value),
        _ => Ok(None),
    }
}

/// Whether an item is equal to the value.
pub fn is_among(items: &[Value], value: &Value) -> bool
    ensures { result ≡ is_among (map json items.now) (json value.now) }
{
    for item in items {
        if value.same(item) {
            return true;
        }
    }
    false
}

// Puts a copy of the value last, where it passes.
fn add_passing(
    alloc: Global,
    all: &mut Vec<Value>,
    value: &Value,
    passes: bool,
) -> Result<(), OutOfMemory>
    ensures { OnOk result (map json all.new.items
        ≡ (if passes then map json all.old.items ++ json value.now ∷ [] else map json all.old.items)) }
{
    if passes {
        all.push(value.copy(alloc)?)?;
    }
    Ok(())
}

/// The values that are equal to none before them.
///
/// It takes time in the order of n log n comparisons of texts, for n values.
pub fn distinct(alloc: Global, values: &[Value]) -> Result<Vec<Value>, OutOfMemory>
    ensures { IfOk result (λ all. map json all.items ≡ distinct [] (map json values.now)) }
{
    let mut all = Vec::new(alloc);
    let mut before = BTreeSet::new(alloc);
    for value in values {
        let is_new = add(alloc, &mut before, value)?;
        add_passing(alloc, &mut all, value, is_new)?;
    }
    Ok(all)
}

/// `union` of arrays: their items in the order of their first appearance, equal ones once.
pub fn union_of_arrays(alloc: Global, args: &[Value]) -> Result<Option<Value>, OutOfMemory>
    ensures { IfOk result (λ value. option_map json value ≡ row.union_of_arrays (map json args.now)) }
{
    match joined(alloc, args)? {
        Some(all) => Ok(array_of(distinct(alloc, all.as_slice())?)),
        None => Ok(None),
    }
}

fn is_array(value: &Value) -> bool
    ensures { result ≡ is_array (json value.now) }
{
    match value {
        Value::Array(_) => true,
        _ => false,
    }
}

fn are_arrays(values: &[Value]) -> bool
    ensures { result ≡ list_all is_array (map json values.now) }
{
    for value in values {
        if !is_array(value) {
            return false;
        }
    }
    true
}

// Copies of the values that are among those whose texts these are.
fn indexed(
    alloc: Global,
    values: &[Value],
    texts: &BTreeSet<Vec<u8>>,
) -> Result<Vec<Value>, OutOfMemory>
    ensures { (js : List Json) → IsIndexOf texts.now js
        → IfOk result (λ all. map json all.items ≡ filter (is_among js) (map json values.now)) }
{
    let mut all = Vec::new(alloc);
    for value in values {
        let passes = has(alloc, texts, value)?;
        add_passing(alloc, &mut all, value, passes)?;
    }
    Ok(all)
}

// Copies of the values that are items of the array.
#[tactic(auto, using(function_numbers::proofs::RowLemmas::items_of_row))]
fn items_among(alloc: Global, values: &[Value], array: &Value) -> Result<Vec<Value>, OutOfMemory>
    ensures { IfOk result (λ all. map json all.items
        ≡ filter (λ j. is_item_of j (json array.now)) (map json values.now)) }
{
    match array {
        Value::Array(items) => {
            let texts = texts_of(alloc, items.as_slice())?;
            indexed(alloc, values, &texts)
        }
        _ => Ok(Vec::new(alloc)),
    }
}

// The values that are in all these arrays.
fn common(alloc: Global, values: Vec<Value>, arrays: &[Value]) -> Result<Vec<Value>, OutOfMemory>
    ensures { IfOk result (λ all. map json all.items
        ≡ filter (λ j. list_all (is_item_of j) (map json arrays.now)) (map json values.items)) }
{
    let mut all = values;
    for array in arrays {
        let kept = items_among(alloc, all.as_slice(), array)?;
        all = kept;
    }
    Ok(all)
}

/// `intersection` of an array with others: its items that are in all others, equal ones once.
pub fn intersection_of_arrays(
    alloc: Global,
    items: &[Value],
    others: &[Value],
) -> Result<Option<Value>, OutOfMemory>
    ensures { IfOk result (λ value. option_map json value
        ≡ row.intersection_of_arrays (map json items.now) (map json others.now)) }
{
    if !are_arrays(others) {
        return Ok(None);
    }
    let values = distinct(alloc, items)?;
    Ok(array_of(common(alloc, values, others)?))
}

// The place, where it passes, else what was found before.
fn here_or(passes: bool, place: usize, found: Option<usize>) -> Option<usize>
    ensures { result ≡ or_found (here passes place) found }
{
    if passes { Some(place) } else { found }
}

/// The place of the first item that is equal to the value, counted from 0.
pub fn first_place(items: &[Value], value: &Value) -> Option<usize>
    ensures { result ≡ first_place (json value.now) (map json items.now) }
{
    for i in 0..items.len() {
        if value.same(&items[i]) {
            return Some(i);
        }
    }
    None
}

/// The place of the last item that is equal to the value, counted from 0.
pub fn last_place(items: &[Value], value: &Value) -> Option<usize>
    ensures { result ≡ last_place (json value.now) (map json items.now) }
{
    let mut found = None;
    for i in 0..items.len() {
        found = here_or(value.same(&items[i]), i, found);
    }
    found
}
