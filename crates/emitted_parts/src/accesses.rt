//! What accesses become.
ghost use Rattle.std.specs.Prelude.{◌≡◌, ℕ, true, List};
ghost use Rattle.arm_expr.specs.Tree.{Tree, index as part_tree, member};
ghost use Rattle.arm_expr.specs.View.{tree_of};
ghost use Rattle.bicep_emission.specs.Emitted.{member_of, part_at};
ghost use Rattle.emitted_parts.specs.Built.{Is, IsText, IsBoxed, is_ascii};

use crate::calls::call_two;
use crate::lists::lacks;
use crate::literals::text;
use arm_expr::Expr;
use arm_value::{OutOfMemory, Text};
use bicep_resolved::Selector;
use bicep_tree::Indexing;
use std::alloc::Global;

fn in_box(alloc: Global, part: Expr) -> Result<Box<Expr>, OutOfMemory>
    ensures { IsBoxed (tree_of part) result }
{
    match Box::new(alloc, part) {
        Ok(part) => Ok(part),
        Err(refused) => lacks(refused),
    }
}

fn boxed(alloc: Global, given: Result<Expr, OutOfMemory>) -> Result<Box<Expr>, OutOfMemory>
    ensures { (a : Tree) → Is a given → IsBoxed a result }
{
    match given {
        Ok(part) => in_box(alloc, part),
        Err(error) => Err(error),
    }
}

fn named_member(value: Box<Expr>, name: Result<Text, OutOfMemory>) -> Result<Expr, OutOfMemory>
    ensures { (a : Tree) (n : List ℕ) → IsBoxed a (Ok value) → IsText n name → Is (member a n) result }
{
    match name {
        Ok(name) => Ok(Expr::Member(value, name)),
        Err(_) => lacks(value),
    }
}

fn member_by(
    value: Result<Box<Expr>, OutOfMemory>,
    name: Result<Text, OutOfMemory>,
) -> Result<Expr, OutOfMemory>
    ensures { (a : Tree) (n : List ℕ) → IsBoxed a value → IsText n name → Is (member a n) result }
{
    match value {
        Ok(value) => named_member(value, name),
        Err(_) => lacks(name),
    }
}

/// The member of a name.
pub fn plain_member(
    alloc: Global,
    value: Result<Expr, OutOfMemory>,
    name: &Text,
) -> Result<Expr, OutOfMemory>
    ensures { (a : Tree) → Is a value → Is (member a name.now) result }
{
    member_by(boxed(alloc, value), name.copy(alloc))
}

/// The member of a name in ASCII.
pub fn word_member(
    alloc: Global,
    value: Result<Expr, OutOfMemory>,
    name: &str,
) -> Result<Expr, OutOfMemory>
    ensures { is_ascii name.now ≡ true → (a : Tree) → Is a value → Is (member a name.now) result }
{
    member_by(boxed(alloc, value), Text::of(alloc, name))
}

/// What `e.n` and `e.?n` become.
pub fn member(
    alloc: Global,
    selector: Selector,
    value: Result<Expr, OutOfMemory>,
    name: &Text,
) -> Result<Expr, OutOfMemory>
    ensures { (a : Tree) → Is a value → Is (member_of selector a name.now) result }
{
    match selector {
        Selector::Plain => plain_member(alloc, value, name),
        Selector::Safe => call_two(alloc, "tryGet", value, text(alloc, name)),
    }
}

fn part_at_box(value: Box<Expr>, index: Result<Box<Expr>, OutOfMemory>) -> Result<Expr, OutOfMemory>
    ensures { (a i : Tree) → IsBoxed a (Ok value) → IsBoxed i index → Is (part_tree a i) result }
{
    match index {
        Ok(index) => Ok(Expr::Index(value, index)),
        Err(_) => lacks(value),
    }
}

fn part_by(
    value: Result<Box<Expr>, OutOfMemory>,
    index: Result<Box<Expr>, OutOfMemory>,
) -> Result<Expr, OutOfMemory>
    ensures { (a i : Tree) → IsBoxed a value → IsBoxed i index → Is (part_tree a i) result }
{
    match value {
        Ok(value) => part_at_box(value, index),
        Err(_) => lacks(index),
    }
}

/// The part at an index.
pub fn plain_part(
    alloc: Global,
    value: Result<Expr, OutOfMemory>,
    index: Result<Expr, OutOfMemory>,
) -> Result<Expr, OutOfMemory>
    ensures { (a i : Tree) → Is a value → Is i index → Is (part_tree a i) result }
{
    part_by(boxed(alloc, value), boxed(alloc, index))
}

/// What `e[i]` and `e[?i]` become.
pub fn part(
    alloc: Global,
    indexing: Indexing,
    value: Result<Expr, OutOfMemory>,
    index: Result<Expr, OutOfMemory>,
) -> Result<Expr, OutOfMemory>
    ensures { (a i : Tree) → Is a value → Is i index → Is (part_at indexing a i) result }
{
    match indexing {
        Indexing::Plain => plain_part(alloc, value, index),
        Indexing::Safe => call_two(alloc, "tryGet", value, index),
    }
}
