// The key that a text names.
ghost use Rattle.std.specs.Prelude.{◌≡◌, ◌<◌, length, option_map, IfOk};
ghost use Rattle.reading.specs.Knowledge.{value};
ghost use Rattle.plan_table.specs.declared.table.Table.{Table};
ghost use Rattle.arm_env.specs.Look.{a_key};
ghost use Rattle.plan_sight.specs.Sites.{named_at};
ghost use Rattle.plan_table.specs.Whole.{whole_of};
ghost use Rattle.plan_table.specs.Found.{scope_at};
ghost use Rattle.plan_sight.specs.Ready.{IsReady, told_in};
ghost use Rattle.plan_sight.specs.Seen.{Shows};
ghost use Rattle.plan_names.specs.Named.{are_one, the_one};

use crate::around::look_around;
use crate::gather::gather_all;
use arm_ids::{Key, Place};
use arm_value::{OutOfMemory, Text};
use plan_sight::lack::Lack;
use plan_table::table::Table;
use std::alloc::Global;

// Whether all of these are one key.
fn are_one(key: &Key, keys: &[Key]) -> bool
    ensures { result ≡ are_one key.now keys.now }
{
    for other in keys {
        if !key.same(other) {
            return false;
        }
    }
    true
}

// The key, where all of these are one.
fn one_key(alloc: Global, keys: &[Key]) -> Result<Option<Key>, OutOfMemory>
    ensures { IfOk result (λ o. o ≡ the_one keys.now) }
{
    match keys.get(0) {
        Some(key) => if are_one(key, keys) {
            Ok(Some(key.copy(alloc)?))
        } else {
            Ok(None)
        },
        None => Ok(None),
    }
}

// The key, where all of these are one.
fn only_key(alloc: Global, keys: &[Key]) -> Result<Key, Lack>
    ensures { (t : Table) → Shows (λ k. a_key k) t result (value (option_map (λ k. a_key k) (the_one keys.now))) }
{
    match one_key(alloc, keys) {
        Ok(key) => match key {
            Some(key) => Ok(key),
            None => Err(Lack::NotThere),
        },
        Err(_) => Err(Lack::OutOfMemory),
    }
}

/// The key that a text names: of the resources of the scope of a frame the one that it names alone, or else that of the
/// nearest nested deployment around.
pub fn look_named(
    alloc: Global,
    table: &Table,
    frame: usize,
    place: &Place,
    text: &Text,
) -> Result<Key, Lack>
    requires ready { IsReady table.now }
    requires there { frame < length table.now.frames.items }
    ensures { Shows (λ k. a_key k) table.now result (told_in table.now
        (named_at (whole_of table.now).template place.now (scope_at table.now frame).position text.now)) }
{
    match gather_all(alloc, table, frame, place, text) {
        Ok(keys) => {
            let listed = keys.as_slice();
            if listed.len() == 0 {
                look_around(alloc, table, frame, place, text)
            } else {
                only_key(alloc, listed)
            }
        }
        Err(lack) => Err(lack),
    }
}
