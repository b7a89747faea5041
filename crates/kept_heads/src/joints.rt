//! Names and conditions that are joined to those of a parent.
ghost use Rattle.std.specs.Prelude.{IfOk};
ghost use Rattle.arm_expr.specs.Tree.{Tree};
ghost use Rattle.emitted_parts.specs.Built.{Is};
ghost use Rattle.emitted_sizes.specs.Extent.{IsOf};
ghost use Rattle.measured_holes.specs.Growth.{Grows};
ghost use Rattle.kept_expressions.specs.Kept.{IsKeptHoles};
ghost use Rattle.kept_heads.specs.Joints.{joined as joined_tree, always as always_tree};

use arm_expr::Expr;
use arm_value::OutOfMemory;
use emitted_parts::calls::{call_none, call_three, call_two};
use emitted_parts::literals::word;
use emitted_sizes::{Extent, calls as call_sizes, literals as literal_sizes};
use kept_expressions::{KeptHoles, beyond_holes, is_within, keep_holes, least_extent};
use kept_parts::still;
use measured_holes::Holed;
use measured_holes::probes::{Probed, deep_index, deep_item, holed, least, wide_index, wide_item};
use std::alloc::Global;

/// How an expression is joined to that of a parent.
#[derive(Clone, Copy)]
pub enum Joint {
    /// A name, with a slash between.
    Slash,
    /// A condition: both hold.
    And,
}

// The extent of what expressions of these extents become.
fn joint_extent(joint: Joint, upper: Extent, own: Extent) -> Extent
    ensures { (a b : Tree) → IsOf a upper → IsOf b own → IsOf (joined_tree joint a b) result }
{
    match joint {
        Joint::Slash => call_sizes::call_three(6, literal_sizes::word("{0}/{1}"), upper, own),
        Joint::And => call_sizes::call_two(3, upper, own),
    }
}

// What the expressions become.
fn joint_of(
    alloc: Global,
    joint: Joint,
    upper: Result<Expr, OutOfMemory>,
    own: Result<Expr, OutOfMemory>,
) -> Result<Expr, OutOfMemory>
    ensures { (a b : Tree) → Is a upper → Is b own → Is (joined_tree joint a b) result }
{
    match joint {
        Joint::Slash => call_three(alloc, "format", word(alloc, "{0}/{1}"), upper, own),
        Joint::And => call_two(alloc, "and", upper, own),
    }
}

// How the expression grows.
fn joint_holed(joint: Joint, upper: Holed, own: Holed) -> Result<Holed, OutOfMemory>
    ensures { (a b : Tree) → Grows a upper → Grows b own → IfOk result (Grows (joined_tree joint a b)) }
{
    let smallest = joint_extent(joint, upper.filled(least()), own.filled(least()));
    let depth = smallest.depth.saturating_add(1);
    let item = deep_item(depth);
    let index = deep_index(depth);
    holed(Probed {
        least: smallest,
        wide_item: joint_extent(joint, upper.filled(wide_item()), own.filled(wide_item())),
        wide_index: joint_extent(joint, upper.filled(wide_index()), own.filled(wide_index())),
        deep_item: joint_extent(joint, upper.filled(item), own.filled(item)),
        deep_index: joint_extent(joint, upper.filled(index), own.filled(index)),
    })
}

/// What two expressions become.
///
/// # Errors
///
/// `OutOfMemory`, also where the expression nests 2^62 deep.
pub fn joined(
    alloc: Global,
    joint: Joint,
    upper: &KeptHoles,
    own: &KeptHoles,
) -> Result<KeptHoles, OutOfMemory>
    ensures { (a b : Tree) → IsKeptHoles a upper.now → IsKeptHoles b own.now
        → IfOk result (IsKeptHoles (joined_tree joint a b)) }
{
    let holed = joint_holed(joint, upper.holed, own.holed)?;
    if !is_within(least_extent(holed)) {
        return Ok(beyond_holes(holed));
    }
    keep_holes(
        holed,
        joint_of(alloc, joint, upper.copied(alloc), own.copied(alloc)),
    )
}

/// The condition of a resource that has none.
///
/// # Errors
///
/// `OutOfMemory`.
pub fn always(alloc: Global) -> Result<KeptHoles, OutOfMemory>
    ensures { IfOk result (IsKeptHoles always_tree) }
{
    let holed = still(call_sizes::call_none(4))?;
    if !is_within(least_extent(holed)) {
        return Ok(beyond_holes(holed));
    }
    keep_holes(holed, call_none(alloc, "true"))
}
