// What is deleted.
ghost use Rattle.std.specs.Prelude.{◌≡◌, ◌++◌, ◌∷◌, ◌<◌, [], List, map, length, slice_get, Some, IfOk, if◌then◌else◌};
ghost use Rattle.arm_ids.specs.Held.{HeldResource};
ghost use Rattle.arm_ids.specs.declared.id.ResourceId.{ResourceId};
ghost use Rattle.arm_env.specs.Find.{id_key};
ghost use Rattle.plan_cells.specs.Tasks.{delete, is_of_group, is_deleted, delete_by, deletes, deletes_in};
ghost use Rattle.plan_deletes.specs.KeySets.{HasKeys};

use crate::puts::{KeySet, has_key, set_of};
use arm_env::find::id_key;
use arm_ids::{Held, Key, Place};
use arm_value::{OutOfMemory, Text};
use std::alloc::Global;
use template_parts::Mode;

// Whether the key is in the group of the place.
fn is_of_group(place: &Place, key: &Key) -> bool
    ensures { result ≡ is_of_group place.now key.now }
{
    let parts = key.parts();
    parts
        .subscription
        .equals_ignore_case(place.subscription.as_str())
        && parts.group.equals_ignore_case(place.group.as_str())
}

// Whether what is held at the key is deleted.
fn is_deleted(alloc: Global, place: &Place, puts: &KeySet, key: &Key) -> Result<bool, OutOfMemory>
    ensures { IfOk result (λ b. (keys : List ResourceId) → HasKeys puts.now keys
        → b ≡ is_deleted place.now keys key.now) }
{
    if is_of_group(place, key) {
        Ok(!has_key(alloc, puts, key)?)
    } else {
        Ok(false)
    }
}

// Lists the key last, where it is wanted.
fn push_wanted(keys: &mut Vec<Key>, key: Key, wanted: bool) -> Result<(), OutOfMemory>
    ensures { IfOk result (λ _. keys.new.items ≡ keys.old.items ++ (if wanted then key ∷ [] else [])) }
{
    if wanted {
        keys.push(key)?;
    }
    Ok(())
}

// Lists the key of what is held by the id, where it is deleted.
fn push_held(
    alloc: Global,
    found: &mut Vec<Key>,
    place: &Place,
    puts: &KeySet,
    id: &Text,
) -> Result<(), OutOfMemory>
    ensures { IfOk result (λ _. (keys : List ResourceId) → HasKeys puts.now keys
        → map delete found.new.items ≡ map delete found.old.items ++ delete_by place.now keys (id_key id.now)) }
{
    match id_key(alloc, id)? {
        Some(key) => {
            let wanted = is_deleted(alloc, place, puts, &key)?;
            push_wanted(found, key, wanted)
        }
        None => Ok(()),
    }
}

// Lists the key of what is held at a place of the list, where it is deleted.
fn push_at(
    alloc: Global,
    found: &mut Vec<Key>,
    place: &Place,
    puts: &KeySet,
    held: &Held,
    at: usize,
) -> Result<(), OutOfMemory>
    requires { at < length held.now }
    ensures { IfOk result (λ _. (keys : List ResourceId) → HasKeys puts.now keys → (h : HeldResource)
        → slice_get held.now at ≡ Some h
        → map delete found.new.items ≡ map delete found.old.items ++ delete_by place.now keys (id_key h.id)) }
{
    match held.at(at) {
        Some(entry) => push_held(alloc, found, place, puts, &entry.id),
        None => Ok(()),
    }
}

// The keys of what is deleted in complete mode.
fn list_held(
    alloc: Global,
    place: &Place,
    puts: &KeySet,
    held: &Held,
) -> Result<Vec<Key>, OutOfMemory>
    ensures { IfOk result (λ v. (keys : List ResourceId) → HasKeys puts.now keys
        → map delete v.items ≡ deletes place.now keys held.now) }
{
    let mut found = Vec::new(alloc);
    'places: for at in 0..held.len() {
        push_at(alloc, &mut found, place, puts, held, at)?;
    }
    Ok(found)
}

/// The keys of what a deployment deletes, in the order in which it is held: in complete mode each key of the group at
/// which something is held and nothing is put, else none.
pub fn list_deletes(
    alloc: Global,
    mode: Mode,
    place: &Place,
    puts: &[Key],
    held: &Held,
) -> Result<Vec<Key>, OutOfMemory>
    ensures { IfOk result (λ v. map delete v.items ≡ deletes_in mode place.now puts.now held.now) }
{
    match mode {
        Mode::Incremental => Ok(Vec::new(alloc)),
        Mode::Complete => {
            let puts = set_of(alloc, puts)?;
            list_held(alloc, place, &puts, held)
        }
    }
}
