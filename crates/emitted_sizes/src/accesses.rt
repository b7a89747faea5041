//! What accesses become.
ghost use Rattle.std.specs.Prelude.{◌≡◌, ℕ, List, length};
ghost use Rattle.arm_expr.specs.Tree.{Tree, index as part_tree, member as member_tree};
ghost use Rattle.emitted_parts.specs.Emitted.{member_of, part_at};
ghost use Rattle.emitted_sizes.specs.Extent.{IsOf};

use crate::calls::call_two;
use crate::characters::characters;
use crate::extent::{Extent, deeper};
use crate::literals::text;
use arm_value::Text;
use bicep_resolved::Selector;
use bicep_tree::Indexing;

/// The member of a name with so many characters.
pub fn plain_member(value: Extent, characters: u64) -> Extent
    ensures { (a : Tree) (name : List ℕ) → length name ≡ characters → IsOf a value
        → IsOf (member_tree a name) result }
{
    let dotted = value.length.saturating_add(1);
    let length = dotted.saturating_add(characters);
    let depth = value.depth.saturating_add(1);
    Extent { length, depth }
}

/// What `e.n` and `e.?n` become.
pub fn member(selector: Selector, value: Extent, name: &Text) -> Extent
    ensures { (a : Tree) → IsOf a value → IsOf (member_of selector a name.now) result }
{
    match selector {
        Selector::Plain => plain_member(value, characters(name.as_str()) as u64),
        Selector::Safe => call_two(6, value, text(name)),
    }
}

/// The part at an index.
pub fn plain_part(value: Extent, index: Extent) -> Extent
    ensures { (a i : Tree) → IsOf a value → IsOf i index → IsOf (part_tree a i) result }
{
    let bracketed = value.length.saturating_add(2);
    let length = bracketed.saturating_add(index.length);
    let deepest = deeper(value.depth, index.depth);
    let depth = deepest.saturating_add(1);
    Extent { length, depth }
}

/// What `e[i]` and `e[?i]` become.
pub fn part(indexing: Indexing, value: Extent, index: Extent) -> Extent
    ensures { (a i : Tree) → IsOf a value → IsOf i index → IsOf (part_at indexing a i) result }
{
    match indexing {
        Indexing::Plain => plain_part(value, index),
        Indexing::Safe => call_two(6, value, index),
    }
}
