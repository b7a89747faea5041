// How ids are made, spelled and read.

use crate::answers::Question;
use crate::table::{check, letting_go, two};
use arm_ids::{IdFault, Key, Place, ResourceId, id_text};
use arm_value::{OutOfMemory, Text};
use std::alloc::{AllocError, Global};
use std::test::Fail;

fn place(alloc: Global) -> Result<Place, OutOfMemory> {
    Ok(Place {
        subscription: Text::of(alloc, "00000000-0000-0000-0000-000000000000")?,
        group: Text::of(alloc, "g")?,
        location: Text::from_string(String::new(alloc)),
        deployment: Text::from_string(String::new(alloc)),
    })
}

/// Adds the id of the key, or the fault's message.
pub fn say_key(
    out: &mut String,
    alloc: Global,
    key: &Result<Key, IdFault>,
) -> Result<(), AllocError> {
    match key {
        Ok(key) => out.push_str(key.to_id(alloc)?.as_str()),
        Err(fault) => write!(out, "{fault}"),
    }
}

/// Adds the key of a type and a name.
pub fn say_key_of(out: &mut String, alloc: Global, asked: &str) -> Result<(), AllocError> {
    let (kind, name) = two(asked);
    let place = place(alloc)?;
    let key = Key::of(alloc, &place, kind, name);
    letting_go(say_key(out, alloc, &key), (key, place))
}

/// Adds the key that is read of an id.
pub fn say_key_read(out: &mut String, alloc: Global, asked: &str) -> Result<(), AllocError> {
    let key = Key::read_id(alloc, asked);
    letting_go(say_key(out, alloc, &key), key)
}

const KEYS: &str = "\
A/b x -> /subscriptions/00000000-0000-0000-0000-000000000000/resourcegroups/g/providers/a/b/x
A/b/C X/y -> /subscriptions/00000000-0000-0000-0000-000000000000/resourcegroups/g/providers/a/b/x/c/y
A/b x/y -> the type has not one segment more than the name
A x -> the type has not one segment more than the name
A//b x -> a segment is empty
A//b x/y/z -> a segment is empty
A/b  -> a segment is empty";

#[test]
fn keys_are_made_of_types_and_names(rt: HostRuntime) -> Result<(), Fail> {
    check(rt.alloc(), Question::KeyOf, KEYS)
}

const READ: &str = "\
/subscriptions/S/ResourceGroups/G/providers/N/T/n -> /subscriptions/s/resourcegroups/g/providers/n/t/n
x -> the text is no resource id
 -> the text is no resource id
/subscriptions/s/resourceGroups/g/providers/N -> the text is no resource id
/subscriptions/s/resourceGroups/g/providers/N/t -> the text is no resource id
/subscriptions//resourceGroups/g/providers/N/t/n -> the text is no resource id
/subscriptions/s/resourceGroups/g/providers/N/t/n/u -> the text is no resource id
/subscriptions/s/resourceGroup/g/providers/N/t/n -> the text is no resource id
/subscriptions/s/resourceGroups/g/providers/N/t/n/ -> the text is no resource id";

#[test]
fn texts_are_read_as_keys_or_refused(rt: HostRuntime) -> Result<(), Fail> {
    check(rt.alloc(), Question::KeyRead, READ)
}

fn say_id(out: &mut String, id: &Result<Text, IdFault>) -> Result<(), AllocError> {
    match id {
        Ok(id) => out.push_str(id.as_str()),
        Err(fault) => write!(out, "{fault}"),
    }
}

/// Adds the id of a type and a name, as spelled.
pub fn say_spelled(out: &mut String, alloc: Global, asked: &str) -> Result<(), AllocError> {
    let (kind, name) = two(asked);
    let place = place(alloc)?;
    let id = id_text(alloc, &place, kind, name);
    letting_go(say_id(out, &id), (id, place))
}

const SPELLED: &str =
    "A/b X -> /subscriptions/00000000-0000-0000-0000-000000000000/resourceGroups/g/providers/A/b/X";

#[test]
fn ids_keep_their_spelling(rt: HostRuntime) -> Result<(), Fail> {
    check(rt.alloc(), Question::Spelled, SPELLED)
}

// Adds the text, the full type and the full name of an id.
fn say_all_parts(out: &mut String, alloc: Global, id: &ResourceId) -> Result<(), AllocError> {
    out.push_str(id.text(alloc)?.as_str())?;
    out.push_str(" ")?;
    out.push_str(id.full_type(alloc)?.as_str())?;
    out.push_str(" ")?;
    out.push_str(id.full_name(alloc)?.as_str())
}

fn say_read_parts(
    out: &mut String,
    alloc: Global,
    id: &Result<ResourceId, IdFault>,
) -> Result<(), AllocError> {
    match id {
        Ok(id) => say_all_parts(out, alloc, id),
        Err(fault) => write!(out, "{fault}"),
    }
}

/// Adds the text, the full type and the full name of the id that is read.
pub fn say_parts(out: &mut String, alloc: Global, asked: &str) -> Result<(), AllocError> {
    let id = ResourceId::read(alloc, asked);
    letting_go(say_read_parts(out, alloc, &id), id)
}

const PARTS: &str = "\
/SUBSCRIPTIONS/S/ResourceGroups/G/Providers/N.M/t/U/k/v -> \
/subscriptions/S/resourceGroups/G/providers/N.M/t/U/k/v N.M/t/k U/v";

#[test]
fn an_id_has_a_text_a_full_type_and_a_full_name(rt: HostRuntime) -> Result<(), Fail> {
    check(rt.alloc(), Question::Parts, PARTS)
}

fn say_place(out: &mut String, place: &Place) -> Result<(), AllocError> {
    out.push_str(place.subscription.as_str())?;
    out.push_str(" ")?;
    out.push_str(place.group.as_str())
}

/// Adds the subscription and the group of the copy of a place.
pub fn say_place_copy(out: &mut String, alloc: Global) -> Result<(), AllocError> {
    let place = place(alloc)?;
    let copy = place.copy(alloc)?;
    letting_go(say_place(out, &copy), (copy, place))
}

#[test]
fn a_place_is_copied(rt: HostRuntime) -> Result<(), Fail> {
    let line = "its copy -> 00000000-0000-0000-0000-000000000000 g";
    check(rt.alloc(), Question::PlaceCopy, line)
}
