//! The runs of loops around the body of a loop.
ghost use Rattle.std.specs.Prelude.{◌∷◌, ◌++◌, [], option_map};
ghost use Rattle.arm_expr.specs.Tree.{Tree};
ghost use Rattle.arm_expr.specs.View.{tree_of};
ghost use Rattle.emitted_parts.specs.Emitted.{Frame, element as frame_at};
ghost use Rattle.emitted_expressions.specs.Sight.{frame_of, frames_of, IsFrame, AreFrames};
ghost use Rattle.emitted_parts.specs.Built.{Is};
ghost use Rattle.tree_building.specs.EmittedTrees.{copy_index as index_tree};

use arm_expr::Expr;
use arm_value::{OutOfMemory, Text};
use emitted_expressions::Turn;
use emitted_parts::accesses::plain_part;
use emitted_parts::calls::{call_none, call_one};
use emitted_parts::copies::copied;
use emitted_parts::literals::text;
use emitted_parts::{lacks, with};
use std::alloc::Global;

/// The index of the loop of a name, or of one without a name.
pub fn copy_index(alloc: Global, name: Option<&Text>) -> Result<Expr, OutOfMemory>
    ensures { Is (index_tree (option_map (λ t. t.now) name.entry)) result }
{
    match name {
        Some(name) => call_one(alloc, "copyIndex", text(alloc, name)),
        None => call_none(alloc, "copyIndex"),
    }
}

// The same run again.
fn copied_turn(alloc: Global, turn: &Turn) -> Result<Turn, OutOfMemory>
    ensures { IsFrame (frame_of turn.now) result }
{
    match copied(alloc, &turn.item) {
        Ok(item) => match copied(alloc, &turn.index) {
            Ok(index) => Ok(Turn { item, index }),
            Err(_) => lacks(item),
        },
        Err(error) => Err(error),
    }
}

// Some runs, and then copies of others.
fn with_all(alloc: Global, all: Vec<Turn>, turns: &[Turn]) -> Result<Vec<Turn>, OutOfMemory>
    ensures { AreFrames (frames_of all.items ++ frames_of turns.now) result }
{
    let mut all = all;
    for turn in turns {
        match with(Ok(all), copied_turn(alloc, turn)) {
            Ok(more) => all = more,
            Err(error) => return Err(error),
        }
    }
    Ok(all)
}

// The run of a loop over a value at an index.
fn run_at(alloc: Global, over: Result<Expr, OutOfMemory>, index: Expr) -> Result<Turn, OutOfMemory>
    ensures { (a : Tree) → Is a over → IsFrame (frame_at a (tree_of index)) result }
{
    match plain_part(alloc, over, copied(alloc, &index)) {
        Ok(item) => Ok(Turn { item, index }),
        Err(_) => lacks(index),
    }
}

/// The run of a loop over a value at an index.
pub fn run(
    alloc: Global,
    over: Result<Expr, OutOfMemory>,
    index: Result<Expr, OutOfMemory>,
) -> Result<Turn, OutOfMemory>
    ensures { (a i : Tree) → Is a over → Is i index → IsFrame (frame_at a i) result }
{
    match index {
        Ok(index) => run_at(alloc, over, index),
        Err(_) => lacks(over),
    }
}

/// A run, and then copies of others.
pub(crate) fn followed(
    alloc: Global,
    first: Result<Turn, OutOfMemory>,
    turns: &[Turn],
) -> Result<Vec<Turn>, OutOfMemory>
    ensures { (f : Frame) → IsFrame f first → AreFrames (f ∷ frames_of turns.now) result }
{
    match with(Ok(Vec::new(alloc)), first) {
        Ok(all) => with_all(alloc, all, turns),
        Err(error) => Err(error),
    }
}
