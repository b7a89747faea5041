// What is kept of a part that was read: the part, and how deep it nests.

ghost use Rattle.std.specs.Prelude.{◌≡◌, None, [], ◌∷◌, ◌++◌, max, IfOk};

use crate::discard::Discard;
use arm_value::OutOfMemory;
use foundation::limits::MAX_EXPRESSION_NESTING;
use std::alloc::Global;
use std::marker::Model;

/// How deep expressions may nest, as a depth of `Kept`.
pub const MAX_PART_NESTING: usize = MAX_EXPRESSION_NESTING as usize;

/// A part of a file, and how deep it nests. A leaf replaces a part that nests above `MAX_PART_NESTING`, and its
/// depth is one more than that; so no tree is kept that nests deeper.
#[derive(Drop)]
pub struct Kept<T> {
    /// The part, or a leaf.
    pub part: T,
    /// How deep the part nests; a leaf nests 0.
    pub depth: usize,
}

// A function that hands a `Kept` on then sees no part of it, and derives nothing of its tree.
impl<T> Model for Kept<T> {
    ghost use Rattle.bicep_machine.specs.Held.{Held};

    ghost Value = { Held T };

    ghost view = { λ k. record { part = k.part; depth = k.depth } };
}

/// The greater depth.
pub fn deeper(one: usize, other: usize) -> usize
    ensures { result ≡ max one other }
{
    if one < other { other } else { one }
}

/// A part of no depth.
pub fn flat<T>(part: T) -> Kept<T>
    ensures part { result.part ≡ part }
    ensures depth { result.depth ≡ 0 }
{
    Kept { part, depth: 0 }
}

/// A list with nothing in it.
pub fn empty<T>(alloc: Global) -> Kept<Vec<T>>
    ensures items { result.part.items ≡ [] }
    ensures depth { result.depth ≡ 0 }
{
    flat(Vec::new(alloc))
}

// The list with one more at its end.
pub(crate) fn put<T: Drop>(list: Kept<Vec<T>>, item: Kept<T>) -> Result<Kept<Vec<T>>, OutOfMemory>
    ensures items { IfOk result (λ k. k.part.items ≡ list.part.items ++ item.part ∷ []) }
    ensures depth { IfOk result (λ k. k.depth ≡ max list.depth item.depth) }
{
    let depth = deeper(list.depth, item.depth);
    let mut part = list.part;
    part.push(item.part)?;
    Ok(Kept { part, depth })
}

// `None`; drops the part.
pub(crate) fn nothing<T: Discard, R>(part: T) -> Option<R>
    ensures { result ≡ None }
{
    part.discard();
    None
}
