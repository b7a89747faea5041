//! Parts in the byte order of their names.
ghost use Rattle.std.specs.Prelude.{◌≡◌, ◌≤◌, length, IfOk};
ghost use Rattle.std.specs.List.{insert};
ghost use Rattle.arm_value.specs.Json.{key_cmp};
ghost use Rattle.named_parts.specs.Order.{place_of, inserted};

use crate::named::Named;
use arm_value::{ListOf, OutOfMemory, Text};
use std::alloc::AllocError;
use std::cmp::Ordering;

// How names compare, by their bytes.
fn compare(name: &Text, other: &Text) -> Ordering
    ensures { result ≡ key_cmp name.now other.now }
{
    name.as_str().cmp(other.as_str())
}

// The place of a name among parts.
fn place<T: Named>(name: &Text, parts: &[T]) -> usize
    ensures { result ≡ place_of T.name_of name.now parts.now }
{
    for (place, part) in parts.iter().enumerate() {
        match compare(name, part.name()) {
            Ordering::Less | Ordering::Equal => return place,
            Ordering::Greater => {}
        }
    }
    parts.len()
}

// The parts with one more at a place.
fn insert_at<T: Drop>(parts: ListOf<T>, place: usize, part: T) -> Result<ListOf<T>, OutOfMemory>
    requires { place ≤ length parts }
    ensures { IfOk result (λ xs. xs ≡ insert parts place part) }
{
    let mut all = parts.into_vec();
    match all.insert(place, part) {
        Ok(()) => Ok(ListOf::from_vec(all)),
        Err(_) => Err(AllocError),
    }
}

/// The parts with one more, before the first whose name is not below its name in byte order. They are dropped where
/// there is no memory.
///
/// # Errors
///
/// `OutOfMemory`.
pub fn with_part<T: Named>(parts: ListOf<T>, part: T) -> Result<ListOf<T>, OutOfMemory>
    ensures { IfOk result (λ xs. xs ≡ inserted T.name_of part parts) }
{
    let place = place(part.name(), parts.as_slice());
    insert_at(parts, place, part)
}
