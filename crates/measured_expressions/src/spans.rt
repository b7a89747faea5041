//! The extents of the runs of the loops around an expression.
ghost use Rattle.std.specs.Prelude.{List, slice_get};
ghost use Rattle.arm_expr.specs.Tree.{Tree};
ghost use Rattle.bicep_emission.specs.Emitted.{Frame, item_of as item_tree, index_of as index_tree, element as frame_at};
ghost use Rattle.emitted_sizes.specs.Extent.{IsOf};
ghost use Rattle.measured_expressions.specs.Spans.{IsSpan, AreSpans};

use emitted_sizes::Extent;
use emitted_sizes::accesses::plain_part;
use emitted_sizes::literals::no_value;

/// The extents of the item and the index of a run of a loop.
#[derive(Clone, Copy)]
pub struct Span {
    /// Of the item.
    pub item: Extent,
    /// Of the index.
    pub index: Extent,
}

/// The item of the loop that so many others are between.
pub fn item_of(spans: &[Span], number: usize) -> Extent
    ensures { (fs : List Frame) → AreSpans fs spans.now → IsOf (item_tree (slice_get fs number)) result }
{
    match spans.get(number) {
        Some(span) => span.item,
        None => no_value(),
    }
}

/// The index of the loop that so many others are between.
pub fn index_of(spans: &[Span], number: usize) -> Extent
    ensures { (fs : List Frame) → AreSpans fs spans.now → IsOf (index_tree (slice_get fs number)) result }
{
    match spans.get(number) {
        Some(span) => span.index,
        None => no_value(),
    }
}

/// The run of a loop over a value at an index.
pub fn element(over: Extent, index: Extent) -> Span
    ensures { (a i : Tree) → IsOf a over → IsOf i index → IsSpan (frame_at a i) result }
{
    Span {
        item: plain_part(over, index),
        index,
    }
}
