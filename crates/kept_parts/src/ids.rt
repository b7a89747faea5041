//! Ids of a type and their parts.
ghost use Rattle.std.specs.Prelude.{ℕ, List, map, option_map};
ghost use Rattle.arm_expr.specs.Tree.{Tree, text as text_tree, trees, more};
ghost use Rattle.emitted_parts.specs.Emitted.{Frame};
ghost use Rattle.emission_laws.specs.Holes.{fill};
ghost use Rattle.emitted_declarations.specs.Declared.{id_of_parts};
ghost use Rattle.emitted_parts.specs.Built.{Is, Are};
ghost use Rattle.emitted_sizes.specs.Extent.{IsOf, AreOf};
ghost use Rattle.kept_expressions.specs.Spans.{IsSpan};
ghost use Rattle.kept_expressions.specs.Kept.{AreKeptHoles};
ghost use Rattle.kept_expressions.specs.Limits.{IsPut};

use arm_expr::Expr;
use arm_value::{OutOfMemory, Text};
use emitted_parts::calls::call;
use emitted_parts::literals::text;
use emitted_parts::with;
use emitted_sizes::{Extent, Row, calls as call_sizes};
use kept_expressions::{KeptHoles, Span};
use std::alloc::Global;

// The type and the parts, with a run in their holes.
fn parts_extent(kind: Extent, parts: &[KeptHoles], span: Span) -> Extent
    ensures { (k : List ℕ) (ts : List Tree) (f : Frame) → IsOf (text_tree k) kind → AreKeptHoles ts parts.now
        → IsSpan f span → AreOf (more (text_tree k) (trees (map (fill f) ts))) result }
{
    let mut row = Row::new().with(kind);
    for part in parts {
        row = row.with(part.holed.filled(span));
    }
    row.end()
}

/// The extent of the id of a type and these parts, with a run in their holes.
pub fn id_extent(kind: Extent, parts: &[KeptHoles], span: Span) -> Extent
    ensures { (k : List ℕ) (ts : List Tree) (f : Frame) → IsOf (text_tree k) kind → AreKeptHoles ts parts.now
        → IsSpan f span → IsOf (id_of_parts k (map (fill f) ts)) result }
{
    call_sizes::call(10, parts_extent(kind, parts, span))
}

fn parts_filled(
    alloc: Global,
    kind: &Text,
    parts: &[KeptHoles],
    item: Option<&Expr>,
    index: Option<&Expr>,
) -> Result<Vec<Expr>, OutOfMemory>
    ensures { (ts : List Tree) (f : Frame) → AreKeptHoles ts parts.now
        → IsPut f.item (option_map (λ e. e.now) item.entry) → IsPut f.index (option_map (λ e. e.now) index.entry)
        → Are (more (text_tree kind.now) (trees (map (fill f) ts))) result }
{
    let mut all = with(Ok(Vec::new(alloc)), text(alloc, kind))?;
    for part in parts {
        match with(Ok(all), part.filled(alloc, item, index)) {
            Ok(more) => all = more,
            Err(error) => return Err(error),
        }
    }
    Ok(all)
}

/// The id of a type and these parts, with an item and an index in their holes. One that is not given is beyond the
/// limits.
///
/// # Errors
///
/// `OutOfMemory`, also where a part is beyond the limits, or there is a hole for what is.
pub fn id_of_parts(
    alloc: Global,
    kind: &Text,
    parts: &[KeptHoles],
    item: Option<&Expr>,
    index: Option<&Expr>,
) -> Result<Expr, OutOfMemory>
    ensures { (ts : List Tree) (f : Frame) → AreKeptHoles ts parts.now
        → IsPut f.item (option_map (λ e. e.now) item.entry) → IsPut f.index (option_map (λ e. e.now) index.entry)
        → Is (id_of_parts kind.now (map (fill f) ts)) result }
{
    call(
        alloc,
        "resourceId",
        parts_filled(alloc, kind, parts, item, index),
    )
}
