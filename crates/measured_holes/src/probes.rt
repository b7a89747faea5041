//! What is put into holes to see how an extent grows.
ghost use Rattle.std.specs.Prelude.{◌≡◌, ◌<◌, ◌≤◌, ◌+◌, ◌^◌, ℕ, max, Option, IfOk};
ghost use Rattle.arm_expr.specs.Tree.{Tree};
ghost use Rattle.emitted_sizes.specs.Extent.{IsOf, bounded};
ghost use Rattle.measured_expressions.specs.Spans.{IsSpan};
ghost use Rattle.measured_holes.specs.Growth.{Grows, under};
ghost use Rattle.measured_holes.specs.Probes.{probe, deep, wide, IsProbed};

use crate::holed::Holed;
use arm_value::OutOfMemory;
use emitted_sizes::Extent;
use measured_expressions::Span;
use std::alloc::AllocError;

/// The extents of an expression with five runs of a loop in its holes.
#[derive(Clone, Copy)]
pub struct Probed {
    /// Nothing nests, and an item and an index have one character.
    pub least: Extent,
    /// The item has one character more.
    pub wide_item: Extent,
    /// The index has one character more.
    pub wide_index: Extent,
    /// The item nests deeper than the expression without it.
    pub deep_item: Extent,
    /// The index nests deeper than the expression without it.
    pub deep_index: Extent,
}

// An expression that nests so deep.
fn deep_of(depth: u64) -> Extent
    ensures { IsOf (deep depth) result }
{
    Extent {
        length: depth.saturating_add(1),
        depth,
    }
}

// An expression of two characters that does not nest.
fn wide_one() -> Extent
    ensures { IsOf wide result }
{
    Extent {
        length: 2,
        depth: 0,
    }
}

/// Nothing nests, and an item and an index have one character.
pub fn least() -> Span
    ensures { IsSpan (probe (deep 0) (deep 0)) result }
{
    Span {
        item: deep_of(0),
        index: deep_of(0),
    }
}

/// The item has one character more.
pub fn wide_item() -> Span
    ensures { IsSpan (probe wide (deep 0)) result }
{
    Span {
        item: wide_one(),
        index: deep_of(0),
    }
}

/// The index has one character more.
pub fn wide_index() -> Span
    ensures { IsSpan (probe (deep 0) wide) result }
{
    Span {
        item: deep_of(0),
        index: wide_one(),
    }
}

/// The item nests so deep.
pub fn deep_item(depth: u64) -> Span
    ensures { IsSpan (probe (deep depth) (deep 0)) result }
{
    Span {
        item: deep_of(depth),
        index: deep_of(0),
    }
}

/// The index nests so deep.
pub fn deep_index(depth: u64) -> Span
    ensures { IsSpan (probe (deep 0) (deep depth)) result }
{
    Span {
        item: deep_of(0),
        index: deep_of(depth),
    }
}

// How deep a hole is, where what is in it nests one deeper than the expression without it.
fn hole_depth(flat: u64, found: u64) -> Option<u64>
    requires { flat < 2 ^ 62 }
    ensures { (hole : Option ℕ) (rest : ℕ) → rest ≤ flat → under hole 0 ≤ flat
        → found ≡ bounded (max flat (max (under hole (flat + 1)) rest)) → result ≡ hole }
{
    if found > flat {
        Some(found - (flat + 1))
    } else {
        None
    }
}

/// How an expression grows, by its extents with these in its holes. What is deep in them nests one deeper than the
/// expression with the least in its holes.
///
/// # Errors
///
/// `OutOfMemory`, where there was not even memory for the source of it: it nests 2^62 deep.
pub fn holed(probed: Probed) -> Result<Holed, OutOfMemory>
    ensures { (t : Tree) → IsProbed t (bounded (probed.least.depth + 1)) probed → IfOk result (Grows t) }
{
    let flat = probed.least.depth;
    if flat >= 4_611_686_018_427_387_904 {
        return Err(AllocError);
    }
    let length = probed.least.length;
    Ok(Holed {
        length,
        items: probed.wide_item.length.saturating_sub(length),
        indices: probed.wide_index.length.saturating_sub(length),
        depth: flat,
        item_depth: hole_depth(flat, probed.deep_item.depth),
        index_depth: hole_depth(flat, probed.deep_index.depth),
    })
}
