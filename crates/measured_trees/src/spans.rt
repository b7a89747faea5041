//! The extents of the runs of loops around the body of a loop.
ghost use Rattle.std.specs.Prelude.{◌≡◌, ◌∷◌, ◌++◌, List, IfOk, option_map};
ghost use Rattle.arm_expr.specs.Tree.{Tree};
ghost use Rattle.tree_building.specs.Emitted.{Frame, element as frame_at};
ghost use Rattle.emitted_sizes.specs.Extent.{IsOf};
ghost use Rattle.tree_building.specs.EmittedTrees.{copy_index as index_tree, count_of as count_tree};
ghost use Rattle.measured_expressions.specs.Spans.{AreSpans, IsSpan};

use arm_value::{OutOfMemory, Text};
use emitted_sizes::Extent;
use emitted_sizes::accesses::plain_part;
use emitted_sizes::calls::{call_none, call_one};
use emitted_sizes::literals::text;
use measured_expressions::Span;
use std::alloc::Global;

/// How often a loop over a value runs.
pub fn count_of(over: Extent) -> Extent
    ensures { (xs : Tree) → IsOf xs over → IsOf (count_tree xs) result }
{
    call_one(6, over)
}

// The index of the loop of a name.
fn copy_index(name: Option<&Text>) -> Extent
    ensures { IsOf (index_tree (option_map (λ t. t.now) name.entry)) result }
{
    match name {
        Some(name) => call_one(9, text(name)),
        None => call_none(9),
    }
}

/// The run of the loop of a name over a value. The loop of a resource, a module or an output has no name.
pub fn run_of(name: Option<&Text>, over: Extent) -> Span
    ensures { (xs : Tree) → IsOf xs over
        → IsSpan (frame_at xs (index_tree (option_map (λ t. t.now) name.entry))) result }
{
    let index = copy_index(name);
    Span {
        item: plain_part(over, index),
        index,
    }
}

// Some runs, and then others.
fn with_all(all: Vec<Span>, spans: &[Span]) -> Result<Vec<Span>, OutOfMemory>
    ensures { IfOk result (λ ss. ss.items ≡ all.items ++ spans.now) }
{
    let mut all = all;
    for span in spans {
        all.push(*span)?;
    }
    Ok(all)
}

/// The runs around the body of the loop of a name over a value: its own, and those around it.
pub(crate) fn inside(
    alloc: Global,
    name: Option<&Text>,
    over: Extent,
    spans: &[Span],
) -> Result<Vec<Span>, OutOfMemory>
    ensures { (xs : Tree) (fs : List Frame) → IsOf xs over → AreSpans fs spans.now
        → IfOk result (λ ss. AreSpans
        (frame_at xs (index_tree (option_map (λ t. t.now) name.entry)) ∷ fs) ss.items) }
{
    let mut all = Vec::new(alloc);
    all.push(run_of(name, over))?;
    with_all(all, spans)
}
