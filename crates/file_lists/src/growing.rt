//! Lists of parts with one more.
ghost use Rattle.std.specs.Prelude.{◌≡◌, ◌++◌, ◌∷◌, [], IfOk};
ghost use Rattle.file_lists.specs.Found.{IsThere, grown};

use arm_value::{ListOf, OutOfMemory};
use emitted_parts::lacks;
use named_parts::{Named, with_part};
use std::alloc::AllocError;

/// A part that is there, or no memory.
pub(crate) fn there<T: Drop>(part: Result<T, OutOfMemory>) -> Result<Option<T>, OutOfMemory>
    ensures { IsThere part result }
{
    match part {
        Ok(part) => Ok(Some(part)),
        Err(error) => Err(error),
    }
}

/// The parts with one more in its place, where it is there.
pub(crate) fn with_optional<T: Named>(
    parts: ListOf<T>,
    part: Option<T>,
) -> Result<ListOf<T>, OutOfMemory>
    ensures { IfOk result (λ xs. xs ≡ grown T.name_of part parts) }
{
    match part {
        Some(part) => with_part(parts, part),
        None => Ok(parts),
    }
}

/// The parts with one more at their end.
pub(crate) fn with_last<T: Drop>(mut parts: ListOf<T>, part: T) -> Result<ListOf<T>, OutOfMemory>
    ensures { IfOk result (λ xs. xs ≡ parts ++ part ∷ []) }
{
    match parts.push(part) {
        Ok(()) => Ok(parts),
        Err(_) => lacks(parts),
    }
}

/// The parts, and then others.
pub(crate) fn joined<T: Drop>(parts: ListOf<T>, others: ListOf<T>) -> Result<ListOf<T>, OutOfMemory>
    ensures { IfOk result (λ xs. xs ≡ parts ++ others) }
{
    let mut all = parts.into_vec();
    let mut rest = others.into_vec();
    match all.append(&mut rest) {
        Ok(()) => Ok(ListOf::from_vec(all)),
        Err(_) => Err(AllocError),
    }
}
