//! Calls of template functions.
ghost use Rattle.std.specs.Prelude.{◌≡◌, ℕ, List, chars, length};
ghost use Rattle.arm_expr.specs.Tree.{Tree, Trees, call as call_tree, none};
ghost use Rattle.emitted_parts.specs.Emitted.{one, two, three};
ghost use Rattle.emitted_sizes.specs.Extent.{IsOf, AreOf};

use crate::extent::{Extent, Row};

/// A call of a function whose name has so many characters.
pub fn call(characters: u64, arguments: Extent) -> Extent
    ensures { (name : List ℕ) (ts : Trees) → length name ≡ characters → AreOf ts arguments
        → IsOf (call_tree name ts) result }
{
    let named = arguments.length.saturating_add(characters);
    let length = named.saturating_add(1);
    let depth = arguments.depth.saturating_add(1);
    Extent { length, depth }
}

/// A call without arguments.
pub fn call_none(characters: u64) -> Extent
    ensures { (name : List ℕ) → length name ≡ characters → IsOf (call_tree name none) result }
{
    call(characters, Row::new().end())
}

/// A call with one argument.
pub fn call_one(characters: u64, first: Extent) -> Extent
    ensures { (name : List ℕ) (a : Tree) → length name ≡ characters → IsOf a first
        → IsOf (call_tree name (one a)) result }
{
    call(characters, Row::new().with(first).end())
}

/// A call with two arguments.
pub fn call_two(characters: u64, first: Extent, second: Extent) -> Extent
    ensures { (name : List ℕ) (a b : Tree) → length name ≡ characters → IsOf a first → IsOf b second
        → IsOf (call_tree name (two a b)) result }
{
    call(characters, Row::new().with(first).with(second).end())
}

/// A call with three arguments.
pub fn call_three(characters: u64, first: Extent, second: Extent, third: Extent) -> Extent
    ensures { (name : List ℕ) (a b c : Tree) → length name ≡ characters → IsOf a first → IsOf b second
        → IsOf c third → IsOf (call_tree name (three a b c)) result }
{
    call(
        characters,
        Row::new().with(first).with(second).with(third).end(),
    )
}
