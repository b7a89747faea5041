// Locks, their places, and comparisons for tests.

use arm_ids::Scope;
use arm_value::Text;
use lock_rules::{Level, Lock, Place};
use std::alloc::Global;
use std::test::Fail;

/// A lock of this level on the scope of this id, with this name.
pub fn lock(alloc: Global, scope: &str, name: &str, level: Level) -> Result<Lock, Fail> {
    let name = Text::of(alloc, name)?;
    match Text::of(alloc, "") {
        Ok(notes) => scoped(alloc, scope, (name, notes), level),
        Err(_) => letting_go(Err(Fail::from("no notes")), name),
    }
}

// The lock of this name and these notes on the scope of this id.
fn scoped(
    alloc: Global,
    scope: &str,
    (name, notes): (Text, Text),
    level: Level,
) -> Result<Lock, Fail> {
    match Scope::read_id(alloc, scope) {
        Ok(scope) => Ok(Lock {
            scope,
            name,
            level,
            notes,
        }),
        Err(_) => letting_go(Err(Fail::from("no scope")), (name, notes)),
    }
}

/// The place of a lock of this name on the scope of this id.
pub fn place(alloc: Global, scope: &str, name: &str) -> Result<Place, Fail> {
    let scope = Scope::read_id(alloc, scope)?;
    letting_go(place_on(alloc, &scope, name), scope)
}

fn place_on(alloc: Global, scope: &Scope, name: &str) -> Result<Place, Fail> {
    let name = Text::of(alloc, name)?;
    Ok(Place::of(alloc, scope, &name)?)
}

/// The level of this word: `ReadOnly`, or else that of `CanNotDelete`.
pub fn level(word: &str) -> Level {
    if word == "ReadOnly" {
        return Level::ReadOnly;
    }
    Level::CanNotDelete
}

/// The texts in this text, with a comma between.
pub fn texts(alloc: Global, text: &str) -> Result<Vec<Text>, Fail> {
    let mut texts = Vec::new(alloc);
    for text in text.split(',') {
        texts.push(Text::of(alloc, text)?)?;
    }
    Ok(texts)
}

/// Fails where something else is found than wanted.
pub fn compare(asked: &str, found: &str, wanted: &str) -> Result<(), Fail> {
    if found == wanted {
        return Ok(());
    }
    Err(Fail::new(format_args!("{asked} -> {wanted} but {found}")))
}

/// Whether there is something.
pub fn is_there<T: Drop>(found: Option<T>) -> bool {
    found.is_some()
}

/// The answer; the part is dropped.
pub fn letting_go<T: Drop, R>(answer: R, _part: T) -> R {
    answer
}
