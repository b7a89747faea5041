// Copies of parts and of lists of parts.
ghost use Rattle.std.specs.Prelude.{◌≡◌, ◌++◌, ◌∷◌, [], IfOk};

use arm_value::{Fields, Items, ListOf, OutOfMemory, Text, Value};
use std::alloc::{AllocError, Global};

/// What can be copied.
pub trait Copied: Drop {
    ghost use Rattle.std.specs.Prelude.{◌≡◌, IfOk};

    /// An equal value.
    fn copied(&self, alloc: Global) -> Result<Self, OutOfMemory>
        ensures { IfOk result (λ c. c ≡ self.now) };
}

impl Copied for Text {
    fn copied(&self, alloc: Global) -> Result<Text, OutOfMemory> {
        self.copy(alloc)
    }
}

impl Copied for Value {
    fn copied(&self, alloc: Global) -> Result<Value, OutOfMemory> {
        self.copy(alloc)
    }
}

impl Copied for Items {
    fn copied(&self, alloc: Global) -> Result<Items, OutOfMemory> {
        self.copy(alloc)
    }
}

impl Copied for Fields {
    fn copied(&self, alloc: Global) -> Result<Fields, OutOfMemory> {
        self.copy(alloc)
    }
}

/// Out of memory; the part is dropped.
pub fn run_out<T: Drop, R: Drop>(_part: T) -> Result<R, OutOfMemory>
    ensures { IfOk result (λ _. ⊥) }
{
    Err(AllocError)
}

/// A copy of what is there.
pub fn copy_option<T: Copied>(alloc: Global, part: &Option<T>) -> Result<Option<T>, OutOfMemory>
    ensures { IfOk result (λ c. c ≡ part.now) }
{
    match part {
        Some(part) => Ok(Some(part.copied(alloc)?)),
        None => Ok(None),
    }
}

// The list with one more at its end.
fn with_part<T: Drop>(mut parts: ListOf<T>, part: T) -> Result<ListOf<T>, OutOfMemory>
    ensures { IfOk result (λ l. l ≡ parts ++ part ∷ []) }
{
    match parts.push(part) {
        Ok(()) => Ok(parts),
        Err(_) => run_out(parts),
    }
}

/// A copy of the list, each part copied.
pub fn copy_all<T: Copied>(alloc: Global, parts: &ListOf<T>) -> Result<ListOf<T>, OutOfMemory>
    ensures { IfOk result (λ l. l ≡ parts.now) }
{
    let mut copies = ListOf::new(alloc);
    for part in parts.as_slice() {
        match part.copied(alloc) {
            Ok(copy) => copies = with_part(copies, copy)?,
            Err(_) => return run_out(copies),
        }
    }
    Ok(copies)
}
