// Entries that are held, by their keys.

use crate::answers::Question;
use crate::table::{check, letting_go};
use arm_ids::{Entry, Held, IdFault, Key, PutFault};
use arm_value::{Text, Value};
use std::alloc::{AllocError, Global};
use std::test::Fail;

/// What is done to three entries that were put, two of which have one key.
#[derive(Clone, Copy)]
pub enum Change {
    /// Nothing.
    None,
    /// One is removed from a copy.
    Removed,
    /// One more is put, whose id names no resource.
    Refused,
}

const B: &str = "/subscriptions/s/resourceGroups/g/providers/N/t/b";

const CAPITAL_B: &str = "/subscriptions/S/resourceGroups/G/providers/N/t/B";

const C: &str = "/subscriptions/s/resourceGroups/g/providers/N/t/c";

fn entry_of(alloc: Global, id: &str, api: &str) -> Result<Entry, AllocError> {
    Ok(Entry {
        id: Text::of(alloc, id)?,
        api: Text::of(alloc, api)?,
        body: Value::Null,
        state: Value::Null,
    })
}

fn put(alloc: Global, held: &mut Held, id: &str, api: &str) -> Result<(), PutFault> {
    held.put(alloc, entry_of(alloc, id, api)?)
}

// Puts three entries, two of which have one key.
fn put_three(alloc: Global, held: &mut Held) -> Result<(), PutFault> {
    put(alloc, held, C, "1")?;
    put(alloc, held, B, "2")?;
    put(alloc, held, CAPITAL_B, "3")
}

// The API version of the entry of this key, if one is held.
fn api_of<'a>(held: &'a Held, key: &Result<Key, IdFault>) -> &'a str {
    match key {
        Ok(key) => match held.find(key) {
            Some(entry) => entry.api.as_str(),
            None => "none",
        },
        Err(_) => "no key",
    }
}

// The API version of the first entry.
fn first_api(held: &Held) -> &str {
    match held.at(0) {
        Some(entry) => entry.api.as_str(),
        None => "none",
    }
}

// Adds how many entries are held, the API version of the first, and that of the one whose id is B.
fn say_entries(out: &mut String, alloc: Global, held: &Held) -> Result<(), AllocError> {
    let key = Key::read_id(alloc, B);
    let said = write!(
        out,
        "{} {} {}",
        held.len(),
        first_api(held),
        api_of(held, &key)
    );
    letting_go(said, key)
}

// Removes the entry whose id is B.
fn remove(alloc: Global, held: &mut Held) {
    match Key::read_id(alloc, B) {
        Ok(key) => drop(held.remove(&key)),
        Err(_) => {}
    }
}

fn say_removed(out: &mut String, alloc: Global, held: &Held) -> Result<(), AllocError> {
    let mut copy = held.copy(alloc)?;
    remove(alloc, &mut copy);
    letting_go(say_entries(out, alloc, &copy), copy)
}

// Adds what is answered where an entry is put whose id is that of a group, and what is held after that.
fn say_refused(out: &mut String, alloc: Global, held: &mut Held) -> Result<(), AllocError> {
    match put(alloc, held, "/subscriptions/s/resourceGroups/g", "4") {
        Ok(()) => out.push_str("put")?,
        Err(fault) => write!(out, "{fault}")?,
    }
    out.push_str(", ")?;
    say_entries(out, alloc, held)
}

fn say_changed(
    out: &mut String,
    alloc: Global,
    held: &mut Held,
    change: Change,
) -> Result<(), AllocError> {
    if put_three(alloc, held).is_err() {
        return out.push_str("not put");
    }
    match change {
        Change::None => say_entries(out, alloc, held),
        Change::Removed => say_removed(out, alloc, held),
        Change::Refused => say_refused(out, alloc, held),
    }
}

/// Adds how many entries are held after the change, the API version of the first, and that of one by its id.
pub fn say_held(out: &mut String, alloc: Global, change: Change) -> Result<(), AllocError> {
    let mut held = Held::new(alloc);
    letting_go(say_changed(out, alloc, &mut held, change), held)
}

#[test]
fn one_entry_is_held_of_each_key(rt: HostRuntime) -> Result<(), Fail> {
    check(rt.alloc(), Question::Held(Change::None), "three -> 2 3 3")
}

#[test]
fn an_entry_that_is_removed_is_not_held(rt: HostRuntime) -> Result<(), Fail> {
    check(
        rt.alloc(),
        Question::Held(Change::Removed),
        "the copy -> 1 1 none",
    )
}

#[test]
fn an_entry_whose_id_is_no_resource_id_is_refused(rt: HostRuntime) -> Result<(), Fail> {
    let line = "a group's id -> the entry's id is no resource id, 2 3 3";
    check(rt.alloc(), Question::Held(Change::Refused), line)
}
