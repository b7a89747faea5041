// Putting a member in its place.
ghost use Rattle.std.specs.Prelude.{ℕ, ◌≡◌, ◌≤◌, ◌<◌, length, map, max, chars, insert, if◌then◌else◌, is_ok};
ghost use Rattle.arm_value.specs.Json.{members_nesting, IsInOrder, key_cmp};
ghost use Rattle.arm_value.specs.View.{json, member, held};
ghost use Rattle.arm_value.specs.Place.{IsPlace, replaced, others_nesting};

use crate::memory::OutOfMemory;
use crate::value::{Field, Value};
use std::alloc::Global;
use std::cmp::Ordering;

// How the member's name compares with the name, by their bytes.
fn compare(field: &Field, name: &str) -> Ordering
    ensures { result ≡ key_cmp field.now.name (chars name.now) }
{
    field.name.as_str().cmp(name)
}

// The place of the name among these, or the place where it would be inserted.
pub(crate) fn place(fields: &[Field], name: &str) -> Result<usize, usize>
    requires { IsInOrder (map member fields.now) }
    ensures { IsPlace (chars name.now) (map member fields.now) result }
{
    fields.binary_search_by(|field| compare(field, name))
}

/// The nesting of the deepest of these members; 0 where there is none.
pub fn deepest_member(fields: &[Field]) -> u32
    ensures { result ≡ members_nesting (map member fields.now) }
{
    let mut depth = 0u32;
    for field in fields {
        depth = depth.max(field.value.nesting());
    }
    depth
}

// The nesting of the deepest of these, after a value took the place of one that nested `before`
// deep, and the deepest of all was at `deepest_before`.
pub(crate) fn depth_after(fields: &[Field], deepest_before: u32, before: u32, depth: u32) -> u32
    ensures { (others : ℕ) → deepest_before ≡ max others before
        → members_nesting (map member fields.now) ≡ max others depth
        → result ≡ members_nesting (map member fields.now) }
{
    if before < deepest_before || depth >= deepest_before {
        deepest_before.max(depth)
    } else {
        deepest_member(fields)
    }
}

// Puts a value in place of that of the member there, and answers how deep that one nested.
pub(crate) fn exchange(fields: &mut Option<Vec<Field>>, place: usize, value: Value) -> u32
    requires { place < length (held fields.old) }
    ensures exchanged { map member (held fields.new)
        ≡ replaced (map member (held fields.old)) place (json value) }
    ensures before { members_nesting (map member (held fields.old))
        ≡ max (others_nesting (map member (held fields.old)) place) result }
{
    match fields {
        Some(fields) => {
            let before = fields[place].value.nesting();
            fields[place].value = value;
            before
        }
        None => unreachable!(),
    }
}

// Puts the element before the place, in a vector that may not be there yet.
pub(crate) fn insert_at<T: Drop>(
    alloc: Global,
    list: &mut Option<Vec<T>>,
    place: usize,
    element: T,
) -> Result<(), OutOfMemory>
    requires { place ≤ length (held list.old) }
    ensures { held list.new
        ≡ (if is_ok result then insert (held list.old) place element else held list.old) }
{
    match list {
        Some(elements) => {
            elements.insert(place, element)?;
            Ok(())
        }
        None => {
            let mut elements = Vec::new(alloc);
            elements.push(element)?;
            *list = Some(elements);
            Ok(())
        }
    }
}
