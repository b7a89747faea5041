//! The runs of the loops around an expression.
ghost use Rattle.std.specs.Prelude.{◌∷◌, [], slice_get};
ghost use Rattle.arm_expr.specs.Tree.{Tree};
ghost use Rattle.emitted_parts.specs.Emitted.{item_of as item_tree, index_of as index_tree, element as frame_at};
ghost use Rattle.emitted_parts.specs.Built.{Is};
ghost use Rattle.emitted_expressions.specs.Sight.{framed, frames_of, IsFrame, AreFrames};

use arm_expr::Expr;
use arm_value::OutOfMemory;
use emitted_parts::accesses::plain_part;
use emitted_parts::copies::copied;
use emitted_parts::literals::no_value;
use emitted_parts::{lacks, with};
use std::alloc::Global;

/// A run of a loop: the expressions for its item and its index.
#[derive(Drop)]
pub struct Turn {
    /// The item.
    pub item: Expr,
    /// The index.
    pub index: Expr,
}

/// The item of the loop that so many others are between.
pub fn item_of(alloc: Global, turns: &[Turn], number: usize) -> Result<Expr, OutOfMemory>
    ensures { Is (item_tree (slice_get (frames_of turns.now) number)) result }
{
    match turns.get(number) {
        Some(turn) => copied(alloc, &turn.item),
        None => no_value(alloc),
    }
}

/// The index of the loop that so many others are between.
pub fn index_of(alloc: Global, turns: &[Turn], number: usize) -> Result<Expr, OutOfMemory>
    ensures { Is (index_tree (slice_get (frames_of turns.now) number)) result }
{
    match turns.get(number) {
        Some(turn) => copied(alloc, &turn.index),
        None => no_value(alloc),
    }
}

fn turn_of(
    item: Result<Expr, OutOfMemory>,
    index: Result<Expr, OutOfMemory>,
) -> Result<Turn, OutOfMemory>
    ensures { (a i : Tree) → Is a item → Is i index → IsFrame (framed a i) result }
{
    match item {
        Ok(item) => match index {
            Ok(index) => Ok(Turn { item, index }),
            Err(_) => lacks(item),
        },
        Err(_) => lacks(index),
    }
}

/// The run of a loop over a value at an index.
pub fn element(
    alloc: Global,
    over: Result<Expr, OutOfMemory>,
    index: Result<Expr, OutOfMemory>,
) -> Result<Vec<Turn>, OutOfMemory>
    ensures { (a i : Tree) → Is a over → Is i index → AreFrames (frame_at a i ∷ []) result }
{
    match index {
        Ok(index) => {
            let item = plain_part(alloc, over, copied(alloc, &index));
            with(Ok(Vec::new(alloc)), turn_of(item, Ok(index)))
        }
        Err(_) => lacks(over),
    }
}
