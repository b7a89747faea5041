// Values put together from their parts. A call that is out of memory drops what it was given.

ghost use Rattle.std.specs.Prelude.{◌≡◌, ◌≤◌, chars, IfOk};
ghost use Rattle.arm_value.specs.View.{json};
ghost use Rattle.arm_value.specs.Json.{nesting, put, text as json_text};

use arm_value::{Fields, OutOfMemory, Text, Value};
use std::alloc::{AllocError, Global};

/// Out of memory; the part is dropped.
pub(crate) fn run_out<T: Drop, R: Drop>(_part: T) -> Result<R, OutOfMemory>
    ensures { IfOk result (λ _. ⊥) }
{
    Err(AllocError)
}

/// The answer; the part is dropped.
pub(crate) fn letting_go<T: Drop, R: Drop>(answer: R, _part: T) -> R
    ensures { result ≡ answer }
{
    answer
}

/// The members with the value at the name.
pub(crate) fn with_value(
    alloc: Global,
    mut members: Fields,
    name: &str,
    value: Value,
) -> Result<Fields, OutOfMemory>
    requires { nesting (json value) ≤ 119 }
    ensures { IfOk result (λ ms. ms ≡ put (chars name.now) (json value) members) }
{
    match members.set(alloc, name, value) {
        Ok(()) => Ok(members),
        Err(_) => run_out(members),
    }
}

/// The members with a copy of the text at the name.
pub(crate) fn with_text(
    alloc: Global,
    members: Fields,
    name: &str,
    text: &Text,
) -> Result<Fields, OutOfMemory>
    ensures { IfOk result (λ ms. ms ≡ put (chars name.now) (json_text text.now) members) }
{
    match text.copy(alloc) {
        Ok(text) => with_value(alloc, members, name, Value::Text(text)),
        Err(_) => run_out(members),
    }
}
