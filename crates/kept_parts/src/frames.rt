//! Runs of loops in the holes of expressions.
ghost use Rattle.std.specs.Prelude.{◌≡◌, [], List, map, IfOk};
ghost use Rattle.arm_expr.specs.Tree.{Tree, index as index_tree};
ghost use Rattle.emitted_parts.specs.Emitted.{Frame, element, no_value as no_value_tree};
ghost use Rattle.emission_laws.specs.Holes.{fill, nearest};
ghost use Rattle.emitted_sizes.specs.Extent.{IsOf};
ghost use Rattle.kept_expressions.specs.Growth.{Grows};
ghost use Rattle.kept_expressions.specs.Spans.{IsSpan};
ghost use Rattle.kept_expressions.specs.Kept.{IsKept, IsKeptHoles, AreKeptHoles};
ghost use Rattle.kept_parts.specs.Frames.{IsKeptFrame, fill_frame};

use crate::growing::still;
use arm_value::OutOfMemory;
use emitted_parts::accesses::plain_part;
use emitted_parts::literals::no_value;
use emitted_parts::{lacks, with};
use emitted_sizes::{Extent, accesses as access_sizes, literals as literal_sizes};
use kept_expressions::probes::{
    Probed, deep_index, deep_item, holed, least, wide_index, wide_item,
};
use kept_expressions::{
    Holed, Kept, KeptHoles, Span, beyond_holes, is_within, keep_holes, least_extent,
};
use std::alloc::Global;

/// A run of a loop: its item and its index, with holes for those of the loop around it.
#[derive(Drop)]
pub struct KeptFrame {
    /// The item.
    pub item: KeptHoles,
    /// The index.
    pub index: KeptHoles,
}

fn frame_of(
    item: Result<KeptHoles, OutOfMemory>,
    index: Result<KeptHoles, OutOfMemory>,
) -> Result<KeptFrame, OutOfMemory>
    ensures { (f : Frame) → IfOk item (IsKeptHoles f.item) → IfOk index (IsKeptHoles f.index)
        → IfOk result (IsKeptFrame f) }
{
    match item {
        Ok(item) => match index {
            Ok(index) => Ok(KeptFrame { item, index }),
            Err(_) => lacks(item),
        },
        Err(_) => lacks(index),
    }
}

/// An expression without a value.
pub fn kept_nothing(alloc: Global) -> Result<KeptHoles, OutOfMemory>
    ensures { IfOk result (IsKeptHoles no_value_tree) }
{
    let holed = still(literal_sizes::no_value())?;
    if !is_within(least_extent(holed)) {
        return Ok(beyond_holes(holed));
    }
    keep_holes(holed, no_value(alloc))
}

/// No loop: an item and an index without values.
pub fn no_frame(alloc: Global) -> Result<KeptFrame, OutOfMemory>
    ensures { IfOk result (IsKeptFrame (nearest [])) }
{
    frame_of(kept_nothing(alloc), kept_nothing(alloc))
}

// How the item grows of a loop that runs over what has this extent, at an index that grows so.
fn part_holed(over: Extent, index: Holed) -> Result<Holed, OutOfMemory>
    ensures { (a i : Tree) → ((f : Frame) → fill f a ≡ a) → IsOf a over → Grows i index
        → IfOk result (Grows (index_tree a i)) }
{
    let smallest = access_sizes::plain_part(over, index.filled(least()));
    let depth = smallest.depth.saturating_add(1);
    holed(Probed {
        least: smallest,
        wide_item: access_sizes::plain_part(over, index.filled(wide_item())),
        wide_index: access_sizes::plain_part(over, index.filled(wide_index())),
        deep_item: access_sizes::plain_part(over, index.filled(deep_item(depth))),
        deep_index: access_sizes::plain_part(over, index.filled(deep_index(depth))),
    })
}

fn element_item(alloc: Global, over: &Kept, index: &KeptHoles) -> Result<KeptHoles, OutOfMemory>
    ensures { (a i : Tree) → ((f : Frame) → fill f a ≡ a) → IsKept a over.now → IsKeptHoles i index.now
        → IfOk result (IsKeptHoles (index_tree a i)) }
{
    let holed = part_holed(over.extent, index.holed)?;
    if !is_within(least_extent(holed)) {
        return Ok(beyond_holes(holed));
    }
    let part = plain_part(alloc, over.copied(alloc), index.copied(alloc));
    keep_holes(holed, part)
}

/// The run of a loop over a value, which has no holes, at an index.
pub fn element_frame(alloc: Global, over: &Kept, index: KeptHoles) -> Result<KeptFrame, OutOfMemory>
    ensures { (a i : Tree) → ((f : Frame) → fill f a ≡ a) → IsKept a over.now → IsKeptHoles i index
        → IfOk result (IsKeptFrame (element a i)) }
{
    let item = element_item(alloc, over, &index);
    frame_of(item, Ok(index))
}

// The run with this run of the loop around it in its holes.
fn span_of(frame: &KeptFrame, around: Span) -> Span
    ensures { (f g : Frame) → IsKeptFrame g frame.now → IsSpan f around → IsSpan (fill_frame f g) result }
{
    Span {
        item: frame.item.holed.filled(around),
        index: frame.index.holed.filled(around),
    }
}

// How an expression grows with this run in its holes.
fn placed_holed(part: Holed, frame: &KeptFrame) -> Result<Holed, OutOfMemory>
    ensures { (t : Tree) (g : Frame) → Grows t part → IsKeptFrame g frame.now → IfOk result (Grows (fill g t)) }
{
    let smallest = part.filled(span_of(frame, least()));
    let depth = smallest.depth.saturating_add(1);
    holed(Probed {
        least: smallest,
        wide_item: part.filled(span_of(frame, wide_item())),
        wide_index: part.filled(span_of(frame, wide_index())),
        deep_item: part.filled(span_of(frame, deep_item(depth))),
        deep_index: part.filled(span_of(frame, deep_index(depth))),
    })
}

/// An expression with this run in its holes.
pub fn placed(alloc: Global, part: &KeptHoles, frame: &KeptFrame) -> Result<KeptHoles, OutOfMemory>
    ensures { (t : Tree) (g : Frame) → IsKeptHoles t part.now → IsKeptFrame g frame.now
        → IfOk result (IsKeptHoles (fill g t)) }
{
    let holed = placed_holed(part.holed, frame)?;
    if !is_within(least_extent(holed)) {
        return Ok(beyond_holes(holed));
    }
    let item = frame.item.expression.as_ref();
    let index = frame.index.expression.as_ref();
    keep_holes(holed, part.filled(alloc, item, index))
}

/// Each expression with this run in its holes.
pub fn placed_all(
    alloc: Global,
    parts: &[KeptHoles],
    frame: &KeptFrame,
) -> Result<Vec<KeptHoles>, OutOfMemory>
    ensures { (ts : List Tree) (g : Frame) → AreKeptHoles ts parts.now → IsKeptFrame g frame.now
        → IfOk result (λ ps. AreKeptHoles (map (fill g) ts) ps.items) }
{
    let mut all = Vec::new(alloc);
    for part in parts {
        match with(Ok(all), placed(alloc, part, frame)) {
            Ok(more) => all = more,
            Err(error) => return Err(error),
        }
    }
    Ok(all)
}
