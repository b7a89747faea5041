// The nested deployment around that a text names.
ghost use Rattle.std.specs.Prelude.{◌≡◌, ◌<◌, ℕ, List, length, map, IfOk, chars, Option, option_map};
ghost use Rattle.deploy_cells.specs.Guarded.{Reads};
ghost use Rattle.arm_env.specs.Look.{a_key};
ghost use Rattle.arm_value.specs.View.{json};
ghost use Rattle.reading.specs.Reading.{pure, continued};
ghost use Rattle.deploy_cells.specs.Listing.{named_of, instances_of, listing_of};
ghost use Rattle.plan_sight.specs.Scopes.{visible};
ghost use Rattle.plan_sight.specs.Sites.{all_but_first, concat, deployment_key, first_name, seek_name};
ghost use Rattle.plan_table.specs.Whole.{whole_of};
ghost use Rattle.plan_table.specs.Found.{scope_at};
ghost use Rattle.plan_sight.specs.Ready.{IsReady, told_in};
ghost use Rattle.plan_sight.specs.Seen.{Shows};
ghost use Rattle.plan_names.specs.Named.{is_spelled, NamedOr, name_first};
ghost use Rattle.arm_env.specs.Find.{names_key};
ghost use Rattle.arm_ids.specs.Members.{deployment_type};

use crate::spelled::{is_spelled, key_formed};
use arm_ids::{DEPLOYMENT_TYPE, Key, Place};
use arm_value::{OutOfMemory, Text, Value};
use function_numbers::kinds::items_of;
use plan_nested::entry_of;
use plan_nested::seeking::read_deployments;
use plan_sight::lack::Lack;
use plan_table::table::Table;
use std::alloc::Global;

// Whether the text names the nested deployment of a name.
fn is_deployment(alloc: Global, text: &Text, name: &str) -> Result<bool, OutOfMemory>
    ensures { IfOk result (λ b. b ≡ is_spelled text.now deployment_type (chars name.now)) }
{
    is_spelled(alloc, text, DEPLOYMENT_TYPE, name)
}

// The key of the nested deployment of a name.
fn deployment_key(alloc: Global, place: &Place, name: &str) -> Result<Key, OutOfMemory>
    ensures { IfOk result (λ k. k ≡ deployment_key place.now (chars name.now)) }
{
    key_formed(alloc, place, DEPLOYMENT_TYPE, name)
}

// The name of the first of these instances that the text names.
fn first_of<'a>(
    alloc: Global,
    instances: &'a [Value],
    text: &Text,
) -> Result<Option<&'a str>, OutOfMemory>
    ensures { IfOk result (λ o. option_map (λ n. chars n.now) o ≡ first_name
        (is_spelled text.now deployment_type) (map named_of (map json instances.now))) }
{
    for index in 0..instances.len() {
        let entry = entry_of(&instances[index]);
        if is_deployment(alloc, text, entry.name)? {
            return Ok(Some(entry.name));
        }
    }
    Ok(None)
}

// The name of the first instance of a nested deployment that the text names.
fn first_in<'a>(
    alloc: Global,
    instances: &'a Value,
    text: &Text,
) -> Result<Option<&'a str>, OutOfMemory>
    ensures { IfOk result (λ o. option_map (λ n. chars n.now) o
        ≡ first_name (is_spelled text.now deployment_type) (instances_of (json instances.now))) }
{
    match items_of(instances) {
        Some(items) => first_of(alloc, items.as_slice(), text),
        None => Ok(None),
    }
}

// The name of the first of these nested deployments that the text names.
fn first_among<'a>(
    alloc: Global,
    deployments: &'a [Value],
    text: &Text,
) -> Result<Option<&'a str>, OutOfMemory>
    ensures { IfOk result (λ o. option_map (λ n. chars n.now) o ≡ first_name
        (is_spelled text.now deployment_type) (concat (map instances_of (map json deployments.now)))) }
{
    for number in 0..deployments.len() {
        let found = first_in(alloc, &deployments[number], text)?;
        match found {
            Some(name) => return Ok(Some(name)),
            None => {}
        }
    }
    Ok(None)
}

// The name of the first instance in the listing of a scope that the text names.
fn named_in<'a>(
    alloc: Global,
    listing: &'a Value,
    text: &Text,
) -> Result<Option<&'a str>, OutOfMemory>
    ensures { IfOk result (λ o. option_map (λ n. chars n.now) o
        ≡ first_name (is_spelled text.now deployment_type) (concat (listing_of (json listing.now)))) }
{
    match items_of(listing) {
        Some(items) => first_among(alloc, items.as_slice(), text),
        None => Ok(None),
    }
}

// The key of the first instance in the listing of a scope that the text names.
fn key_listed(
    alloc: Global,
    place: &Place,
    listing: &Value,
    text: &Text,
) -> Result<Option<Key>, OutOfMemory>
    ensures { IfOk result (λ o. o ≡ option_map (deployment_key place.now)
        (first_name (is_spelled text.now deployment_type) (concat (listing_of (json listing.now))))) }
{
    let name = named_in(alloc, listing, text)?;
    match name {
        Some(name) => {
            let key = deployment_key(alloc, place, name)?;
            Ok(Some(key))
        }
        None => Ok(None),
    }
}

// The key of the first nested deployment of a scope that the text names.
fn named_here(
    alloc: Global,
    table: &Table,
    frame: usize,
    place: &Place,
    text: &Text,
) -> Result<Option<Key>, Lack>
    requires ready { IsReady table.now }
    requires there { frame < length table.now.frames.items }
    ensures { (rest : Reads (Option (List ℕ))) → NamedOr table.now place.now result rest (told_in table.now
        (name_first table.now frame (is_spelled text.now deployment_type) rest)) }
{
    match read_deployments(alloc, table, frame) {
        Ok(listing) => match key_listed(alloc, place, listing, text) {
            Ok(key) => Ok(key),
            Err(_) => Err(Lack::OutOfMemory),
        },
        Err(lack) => Err(lack),
    }
}

/// The key of the nearest nested deployment, in the scopes around that of a frame, that the text names.
pub fn look_around(
    alloc: Global,
    table: &Table,
    frame: usize,
    place: &Place,
    text: &Text,
) -> Result<Key, Lack>
    requires ready { IsReady table.now }
    requires there { frame < length table.now.frames.items }
    ensures { Shows (λ k. a_key k) table.now result (told_in table.now (continued
        (seek_name (λ n. names_key text.now (deployment_key place.now n))
        (all_but_first (visible (whole_of table.now).template (scope_at table.now frame).position)))
        (λ o. pure (option_map (λ n. a_key (deployment_key place.now n)) o)))) }
{
    let mut at = frame;
    'scopes: loop {
        if table.frames[at].own {
            return Err(Lack::NotThere);
        }
        at = table.frames[at].around;
        match named_here(alloc, table, at, place, text) {
            Ok(Some(key)) => return Ok(key),
            Ok(None) => {}
            Err(lack) => return Err(lack),
        }
    }
}
