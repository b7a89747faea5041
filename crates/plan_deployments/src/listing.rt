// The value that lists the nested deployments of a scope.
ghost use Rattle.std.specs.Prelude.{◌≡◌, ◌<◌, ◌≤◌, length, IfOk};
ghost use Rattle.arm_value.specs.Json.{items_nesting};
ghost use Rattle.arm_value.specs.View.{json};
ghost use Rattle.deploy_cells.specs.Cells.{copies};
ghost use Rattle.deploy_cells.specs.Listing.{instances_named, resource_named, all_named, listing_value};
ghost use Rattle.plan_cells.specs.Resources as cells;
ghost use Rattle.plan_cells.specs.Resources.{nested_from, nested_numbers};
ghost use Rattle.plan_table.specs.Listed.{listed_of};
ghost use Rattle.plan_table.specs.Lines.{IsNumber};
ghost use Rattle.plan_table.specs.Found.{scope_at};
ghost use Rattle.plan_sight.specs.Ready.{IsReady, told_in};
ghost use Rattle.plan_sight.specs.Seen.{Yields};
ghost use Rattle.plan_names.specs.Named.{HasCount};
ghost use Rattle.plan_deployments.specs.Items.{items_told, arrays_told};

use crate::instance::item_told;
use arm_value::{Items, Value};
use plan_sight::lack::Lack;
use plan_sight::look::read_at;
use plan_table::listed::Listed;
use plan_table::table::Table;
use std::alloc::Global;
use template_tree::Body;

// The number of instances that a count says.
fn copies(value: &Value) -> usize
    ensures { result ≡ copies (Some (json value.now)) }
{
    match value {
        Value::Int(number) => if *number < 0 { 0 } else { *number as usize },
        _ => 0,
    }
}

// Whether it is a nested deployment that is not existing.
fn is_nested(listed: &Listed) -> bool
    ensures { result ≡ cells.is_nested (listed_of listed.now) }
{
    if listed.declaration.existing {
        return false;
    }
    match listed.body {
        Body::Deployment(_) => true,
        Body::Members(_) => false,
    }
}

// The items of the instances of a resource.
fn instances_told(
    alloc: Global,
    table: &Table,
    frame: usize,
    number: usize,
    count: usize,
) -> Result<Items, Lack>
    requires ready { IsReady table.now }
    requires there { frame < length table.now.frames.items }
    requires number { IsNumber (scope_at table.now frame) number }
    requires count { HasCount table.now frame number count }
    ensures told { Yields (λ is. is) table.now result (items_told
        (told_in table.now (instances_named (scope_at table.now frame).position number 0 count))) }
    ensures nests { IfOk result (λ is. items_nesting is ≤ 1) }
{
    let mut items = Items::new();
    for copy in 0..count {
        match item_told(alloc, table, frame, number, copy) {
            Ok(item) => items.push(alloc, item)?,
            Err(lack) => return Err(lack),
        }
    }
    Ok(items)
}

// The items of the instances of a resource, by the line of its count.
fn resource_told(alloc: Global, table: &Table, frame: usize, number: usize) -> Result<Items, Lack>
    requires ready { IsReady table.now }
    requires there { frame < length table.now.frames.items }
    requires number { IsNumber (scope_at table.now frame) number }
    ensures told { Yields (λ is. is) table.now result (items_told
        (told_in table.now (resource_named (scope_at table.now frame).position number))) }
    ensures nests { IfOk result (λ is. items_nesting is ≤ 1) }
{
    match table.count_line(alloc, frame, number) {
        Ok(Some(at)) => match read_at(table, at) {
            Ok(value) => instances_told(alloc, table, frame, number, copies(value)),
            Err(lack) => Err(lack),
        },
        Ok(None) => unreachable!(),
        Err(_) => Err(Lack::OutOfMemory),
    }
}

// The arrays of all nested deployments of a scope.
fn arrays_told(alloc: Global, table: &Table, frame: usize) -> Result<Items, Lack>
    requires ready { IsReady table.now }
    requires there { frame < length table.now.frames.items }
    ensures told { Yields (λ is. is) table.now result (arrays_told (told_in table.now
        (all_named (scope_at table.now frame).position (nested_from 0 (scope_at table.now frame).resources)))) }
    ensures nests { IfOk result (λ is. items_nesting is ≤ 2) }
{
    let mut arrays = Items::new();
    let resources = table.frames[frame].resources.as_slice();
    for number in 0..resources.len() {
        if is_nested(&resources[number]) {
            match resource_told(alloc, table, frame, number) {
                Ok(items) => arrays.push(alloc, Value::Array(items))?,
                Err(lack) => return Err(lack),
            }
        }
    }
    Ok(arrays)
}

/// The value that lists the nested deployments of a scope: for each the array of its instances, each with its name and
/// whether it is included.
pub fn listing_told(alloc: Global, table: &Table, frame: usize) -> Result<Value, Lack>
    requires ready { IsReady table.now }
    requires there { frame < length table.now.frames.items }
    ensures { Yields json table.now result (told_in table.now (listing_value
        (scope_at table.now frame).position (nested_numbers (scope_at table.now frame).template))) }
{
    match arrays_told(alloc, table, frame) {
        Ok(arrays) => Ok(Value::Array(arrays)),
        Err(lack) => Err(lack),
    }
}
