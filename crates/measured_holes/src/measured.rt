//! How the expressions of values grow with the loop around them.
ghost use Rattle.std.specs.Prelude.{◌≡◌, ◌∷◌, [], IfOk};
ghost use Rattle.arm_expr.specs.Tree.{Tree};
ghost use Rattle.bicep_resolved.specs.View.{source_of, value_of};
ghost use Rattle.measured_expressions.specs.Emitted.{Frame};
ghost use Rattle.emission_laws.specs.Holes.{fill};
ghost use Rattle.measured_expressions.specs.Values as spec;
ghost use Rattle.measured_holes.specs.Growth.{Grows};

use crate::holed::Holed;
use crate::probes::{Probed, deep_index, deep_item, holed, least, wide_index, wide_item};
use arm_value::OutOfMemory;
use bicep_resolved::{Source, SourceValue};
use measured_expressions::{Sizes, measured, measured_value};
use std::alloc::Global;

/// How an expression grows with the run of the loop around it. It recurses as deep as the expression nests.
///
/// # Errors
///
/// `OutOfMemory`, also where the expression nests 2^62 deep.
pub fn measured_holes<K: Sizes>(alloc: Global, around: &K, e: &Source) -> Result<Holed, OutOfMemory>
    ensures { (t : Tree)
        → ((f : Frame) → spec.expression (K.sight around.now) (source_of e.now) (f ∷ []) ≡ fill f t)
        → IfOk result (Grows t) }
{
    let smallest = measured(alloc, around, e, &[least()])?;
    let depth = smallest.depth.saturating_add(1);
    holed(Probed {
        least: smallest,
        wide_item: measured(alloc, around, e, &[wide_item()])?,
        wide_index: measured(alloc, around, e, &[wide_index()])?,
        deep_item: measured(alloc, around, e, &[deep_item(depth)])?,
        deep_index: measured(alloc, around, e, &[deep_index(depth)])?,
    })
}

/// How the expression of a value grows with the run of the loop around it. It recurses as deep as the value nests.
///
/// # Errors
///
/// `OutOfMemory`, also where the expression nests 2^62 deep.
pub fn measured_value_holes<K: Sizes>(
    alloc: Global,
    around: &K,
    value: &SourceValue,
) -> Result<Holed, OutOfMemory>
    ensures { (t : Tree)
        → ((f : Frame) → spec.value (K.sight around.now) (value_of value.now) (f ∷ []) ≡ fill f t)
        → IfOk result (Grows t) }
{
    let smallest = measured_value(alloc, around, value, &[least()])?;
    let depth = smallest.depth.saturating_add(1);
    holed(Probed {
        least: smallest,
        wide_item: measured_value(alloc, around, value, &[wide_item()])?,
        wide_index: measured_value(alloc, around, value, &[wide_index()])?,
        deep_item: measured_value(alloc, around, value, &[deep_item(depth)])?,
        deep_index: measured_value(alloc, around, value, &[deep_index(depth)])?,
    })
}
