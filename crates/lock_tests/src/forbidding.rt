// What a lock forbids, by its level and its scope.

use crate::made::{compare, letting_go, level, lock};
use arm_ids::Key;
use arm_value::Text;
use lock_rules::{Level, Lock, effective, may_delete, may_delete_group, may_put};
use std::alloc::Global;
use std::test::Fail;

const A: &str = "/subscriptions/S/resourceGroups/G/providers/Demo.Lab/things/a";

// What a lock of this level forbids of the resource `a` of group G in subscription S.
fn forbidden(lock: &[Lock], key: &Key) -> &'static str {
    match (may_put(lock, key), may_delete(lock, key)) {
        (Ok(()), Ok(())) => "nothing",
        (Ok(()), Err(_)) => "deletion",
        (Err(_), Err(_)) => "both",
        (Err(_), Ok(())) => "put",
    }
}

// A scope, and after arrows what CanNotDelete and what ReadOnly on it forbids of `a`.
const TABLE: &str = "/subscriptions/s -> deletion -> both
/subscriptions/t -> nothing -> nothing
/SUBSCRIPTIONS/S/RESOURCEGROUPS/G -> deletion -> both
/subscriptions/s/resourceGroups/h -> nothing -> nothing
/subscriptions/s/resourceGroups/g2 -> nothing -> nothing
/subscriptions/s/resourceGroups/g/providers/Demo.Lab/things/A -> deletion -> both
/subscriptions/s/resourceGroups/g/providers/Demo.Lab/things/b -> nothing -> nothing
/subscriptions/s/resourceGroups/g/providers/Demo.Lab/things/a/parts/p -> nothing -> nothing
/subscriptions/s/resourceGroups/h/providers/Demo.Lab/things/a -> nothing -> nothing";

fn check_level(
    alloc: Global,
    key: &Key,
    scope: &str,
    level: Level,
    wanted: &str,
) -> Result<(), Fail> {
    let locks = [lock(alloc, scope, "k", level)?];
    letting_go(compare(scope, forbidden(&locks, key), wanted), locks)
}

fn check_line(alloc: Global, key: &Key, line: &str) -> Result<(), Fail> {
    let (scope, wanted) = line.split_once(" -> ").unwrap_or((line, ""));
    let (first, second) = wanted.split_once(" -> ").unwrap_or((wanted, ""));
    check_level(alloc, key, scope, Level::CanNotDelete, first)?;
    check_level(alloc, key, scope, Level::ReadOnly, second)
}

// What a table has.
#[derive(Clone, Copy)]
enum Table {
    // What locks forbid of `a`.
    Forbidding,
    // Which lock decides about `a`.
    Deciding,
    // Whether a group may be deleted.
    Groups,
    // Which level a word means.
    Words,
}

// Fails at the first line of the table that is answered otherwise.
fn check_lines(alloc: Global, key: &Key, table: Table, lines: &str) -> Result<(), Fail> {
    for line in lines.lines() {
        match table {
            Table::Forbidding => check_line(alloc, key, line)?,
            Table::Deciding => check_deciding(alloc, key, line)?,
            Table::Groups => check_group(alloc, line)?,
            Table::Words => check_word(alloc, line)?,
        }
    }
    Ok(())
}

fn check_table(alloc: Global, table: Table, lines: &str) -> Result<(), Fail> {
    let key = Key::read_id(alloc, A)?;
    letting_go(check_lines(alloc, &key, table, lines), key)
}

#[test]
fn levels_and_scopes(rt: HostRuntime) -> Result<(), Fail> {
    check_table(rt.alloc(), Table::Forbidding, TABLE)
}

// The name of the lock that decides about the key.
fn deciding<'a>(locks: &'a [Lock], key: &Key) -> &'a str {
    match effective(locks, key) {
        Some(lock) => lock.name.as_str(),
        None => "none",
    }
}

// Adds the lock of a text that has its scope, its name and its level.
fn push(alloc: Global, locks: &mut Vec<Lock>, text: &str) -> Result<(), Fail> {
    let (scope, rest) = text.split_once(' ').unwrap_or((text, ""));
    let (name, word) = rest.split_once(' ').unwrap_or((rest, ""));
    Ok(locks.push(lock(alloc, scope, name, level(word))?)?)
}

// Adds the locks of these texts, with a comma between.
fn push_all(alloc: Global, locks: &mut Vec<Lock>, texts: &str) -> Result<(), Fail> {
    for text in texts.split(',') {
        push(alloc, locks, text)?;
    }
    Ok(())
}

fn check_deciding(alloc: Global, key: &Key, line: &str) -> Result<(), Fail> {
    let (given, wanted) = line.split_once(" -> ").unwrap_or((line, ""));
    let mut locks = Vec::new(alloc);
    let checked = match push_all(alloc, &mut locks, given) {
        Ok(()) => compare(line, deciding(locks.as_slice(), key), wanted),
        Err(fail) => Err(fail),
    };
    letting_go(checked, locks)
}

// Locks, each with its scope, its name and its level, and after an arrow the one that decides about `a`.
const DECIDING: &str = "/subscriptions/s one CanNotDelete,/subscriptions/S two CanNotDelete -> one
/subscriptions/s one CanNotDelete,/subscriptions/s two ReadOnly,/subscriptions/S three ReadOnly -> two
/subscriptions/t one ReadOnly,/subscriptions/s/resourceGroups/g two CanNotDelete -> two
/subscriptions/t one ReadOnly -> none";

#[test]
fn the_first_lock_of_the_most_restrictive_level_decides(rt: HostRuntime) -> Result<(), Fail> {
    check_table(rt.alloc(), Table::Deciding, DECIDING)
}

// A scope, and after an arrow whether group G of subscription S may be deleted with a lock on it.
const GROUPS: &str = "/subscriptions/s -> no
/subscriptions/t -> yes
/subscriptions/s/resourcegroups/g -> no
/subscriptions/s/resourceGroups/h -> yes
/subscriptions/s/resourceGroups/g/providers/Demo.Lab/things/a -> no
/subscriptions/s/resourceGroups/h/providers/Demo.Lab/things/a -> yes
/subscriptions/t/resourceGroups/g/providers/Demo.Lab/things/a -> yes";

// Whether group G of subscription S may be deleted.
fn deletable(alloc: Global, locks: &[Lock]) -> Result<&'static str, Fail> {
    let subscription = Text::of(alloc, "S")?;
    let group = Text::of(alloc, "G")?;
    match may_delete_group(locks, &subscription, &group) {
        Ok(()) => Ok("yes"),
        Err(_) => Ok("no"),
    }
}

fn check_group(alloc: Global, line: &str) -> Result<(), Fail> {
    let (scope, wanted) = line.split_once(" -> ").unwrap_or((line, ""));
    let locks = [lock(alloc, scope, "k", Level::CanNotDelete)?];
    letting_go(check_deletable(alloc, &locks, scope, wanted), locks)
}

fn check_deletable(alloc: Global, locks: &[Lock], scope: &str, wanted: &str) -> Result<(), Fail> {
    compare(scope, deletable(alloc, locks)?, wanted)
}

#[test]
fn locks_on_a_group_and_in_it_forbid_its_deletion(rt: HostRuntime) -> Result<(), Fail> {
    check_table(rt.alloc(), Table::Groups, GROUPS)
}

fn check_word(alloc: Global, line: &str) -> Result<(), Fail> {
    let (word, wanted) = line.split_once(" -> ").unwrap_or((line, ""));
    let text = Text::of(alloc, word)?;
    let found = match Level::of(&text) {
        Some(level) => level.as_str(),
        None => "none",
    };
    compare(word, found, wanted)
}

const WORDS: &str = "readONLY -> ReadOnly
cannotDelete -> CanNotDelete
NotSpecified -> none
ReadOnly2 -> none";

#[test]
fn levels_have_words(rt: HostRuntime) -> Result<(), Fail> {
    check_table(rt.alloc(), Table::Words, WORDS)
}
