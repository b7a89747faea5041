// The order in which locks are kept, and how one replaces another.

use crate::made::{compare, is_there, letting_go, lock, place};
use lock_rules::{Level, Locks};
use std::alloc::Global;
use std::test::Fail;

fn set(alloc: Global, locks: &mut Locks, line: &str) -> Result<(), Fail> {
    let (scope, name) = line.split_once(' ').unwrap_or((line, ""));
    Ok(locks.set(alloc, lock(alloc, scope, name, Level::ReadOnly)?)?)
}

// Sets a lock for each line, which has a scope and a name.
fn set_all(alloc: Global, locks: &mut Locks, lines: &str) -> Result<(), Fail> {
    for line in lines.lines() {
        set(alloc, locks, line)?;
    }
    Ok(())
}

// The names of the locks in their order, each with a space after it.
fn names(alloc: Global, locks: &Locks) -> Result<String, Fail> {
    let mut names = String::new(alloc);
    for lock in locks.as_slice() {
        names.push_str(lock.name.as_str())?;
        names.push(' ')?;
    }
    Ok(names)
}

fn check_names(alloc: Global, locks: &Locks, wanted: &str) -> Result<(), Fail> {
    let names = names(alloc, locks)?;
    compare("names", names.as_str(), wanted)
}

const SCOPES: &str = "/subscriptions/s/resourceGroups/g-1 b
/subscriptions/S/resourceGroups/G Z
/subscriptions/t a
/subscriptions/s/resourceGroups/g y
/subscriptions/s c
/subscriptions/s/resourceGroups/G-1 A";

// Sets the locks of these lines, does the removals of those, and compares the names that are left.
fn check_kept(
    alloc: Global,
    locks: &mut Locks,
    (lines, removals): (&str, &str),
    wanted: &str,
) -> Result<(), Fail> {
    set_all(alloc, locks, lines)?;
    for line in removals.lines() {
        check_removal(alloc, locks, line)?;
    }
    check_names(alloc, locks, wanted)
}

fn check_new(alloc: Global, lines: (&str, &str), wanted: &str) -> Result<(), Fail> {
    let mut locks = Locks::new(alloc);
    letting_go(check_kept(alloc, &mut locks, lines, wanted), locks)
}

#[test]
fn locks_are_in_the_order_of_scopes_and_names(rt: HostRuntime) -> Result<(), Fail> {
    check_new(rt.alloc(), (SCOPES, ""), "c y Z A b a ")
}

const SAME: &str = "/subscriptions/s/resourceGroups/g a
/subscriptions/s b
/SUBSCRIPTIONS/S/resourcegroups/G A";

#[test]
fn a_lock_replaces_the_one_of_its_scope_and_name(rt: HostRuntime) -> Result<(), Fail> {
    check_new(rt.alloc(), (SAME, ""), "b A ")
}

// Removes the lock of a line, which has a scope, a name, and whether a lock is there.
fn check_removal(alloc: Global, locks: &mut Locks, line: &str) -> Result<(), Fail> {
    let (scope, rest) = line.split_once(' ').unwrap_or((line, ""));
    let (name, wanted) = rest.split_once(' ').unwrap_or((rest, ""));
    let place = place(alloc, scope, name)?;
    let found = (locks.find(&place).is_some(), is_there(locks.remove(&place)));
    check_both(letting_go(found, place), line, wanted)
}

fn check_both(found: (bool, bool), line: &str, wanted: &str) -> Result<(), Fail> {
    compare(line, word(found.0), wanted)?;
    compare(line, word(found.1), wanted)
}

fn word(is_there: bool) -> &'static str {
    if is_there { "there" } else { "missing" }
}

const REMOVALS: &str = "/subscriptions/s/resourceGroups/g z there
/subscriptions/s/resourceGroups/g z missing
/subscriptions/s/resourceGroups/g-1 z missing";

#[test]
fn a_lock_is_removed_by_its_place(rt: HostRuntime) -> Result<(), Fail> {
    check_new(rt.alloc(), (SCOPES, REMOVALS), "c y A b a ")
}
