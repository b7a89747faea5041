//! Lists that are built, and ends of functions that drop what they were given.
ghost use Rattle.std.specs.Prelude.{◌≡◌, IsErr, Ok};
ghost use Rattle.emitted_parts.specs.Built.{IsAdded};

use arm_value::OutOfMemory;
use std::alloc::AllocError;

/// There is no memory; the part is dropped.
pub fn lacks<T: Drop, R: Drop>(_part: T) -> Result<R, OutOfMemory>
    ensures { IsErr result }
{
    Err(AllocError)
}

fn added<T: Drop>(mut list: Vec<T>, item: T) -> Result<Vec<T>, OutOfMemory>
    ensures { IsAdded (Ok list) (Ok item) result }
{
    match list.push(item) {
        Ok(()) => Ok(list),
        Err(_) => lacks(list),
    }
}

/// The list with one more item at its end.
pub fn with<T: Drop>(
    list: Result<Vec<T>, OutOfMemory>,
    item: Result<T, OutOfMemory>,
) -> Result<Vec<T>, OutOfMemory>
    ensures { IsAdded list item result }
{
    match list {
        Ok(list) => match item {
            Ok(item) => added(list, item),
            Err(_) => lacks(list),
        },
        Err(_) => lacks(item),
    }
}

/// The answer; the part is dropped.
pub fn letting_go<T: Drop, R>(answer: R, _part: T) -> R
    ensures { result ≡ answer }
{
    answer
}
