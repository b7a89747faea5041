//! What expressions and values become, where they are within the limits.
ghost use Rattle.std.specs.Prelude.{◌≡◌, ◌∷◌, [], IfOk};
ghost use Rattle.arm_expr.specs.Tree.{Tree};
ghost use Rattle.bicep_resolved.specs.View.{source_of, value_of};
ghost use Rattle.emitted_parts.specs.Emitted.{Frame};
ghost use Rattle.measured_holes.specs.Holes.{fill, holes};
ghost use Rattle.emitted_expressions.specs.Values as spec;
ghost use Rattle.kept_expressions.specs.Kept.{IsKept, IsKeptHoles};

use crate::filling::hole_turns;
use crate::keeping::{
    Kept, KeptHoles, beyond, beyond_holes, is_within, keep, keep_holes, least_extent,
};
use arm_value::OutOfMemory;
use bicep_resolved::{Source, SourceValue};
use emitted_expressions::{Declarations, emitted, emitted_value};
use emitted_parts::letting_go;
use measured_expressions::{Sizes, measured, measured_value};
use measured_holes::{measured_holes, measured_value_holes};
use std::alloc::Global;

/// What an expression outside of all loops becomes. It recurses as deep as the expression nests.
pub fn made<K: Declarations + Sizes>(
    alloc: Global,
    around: &K,
    e: &Source,
) -> Result<Kept, OutOfMemory>
    requires { K.Sizes.sight around.now ≡ K.Declarations.sight around.now }
    ensures { IfOk result (IsKept (spec.expression (K.Declarations.sight around.now) (source_of e.now) [])) }
{
    let extent = measured(alloc, around, e, &[])?;
    if !is_within(extent) {
        return Ok(beyond(extent));
    }
    keep(extent, emitted(alloc, around, e, &[]))
}

/// What a value outside of all loops becomes. It recurses as deep as the value nests.
pub fn made_value<K: Declarations + Sizes>(
    alloc: Global,
    around: &K,
    value: &SourceValue,
) -> Result<Kept, OutOfMemory>
    requires { K.Sizes.sight around.now ≡ K.Declarations.sight around.now }
    ensures { IfOk result (IsKept (spec.value (K.Declarations.sight around.now) (value_of value.now) [])) }
{
    let extent = measured_value(alloc, around, value, &[])?;
    if !is_within(extent) {
        return Ok(beyond(extent));
    }
    keep(extent, emitted_value(alloc, around, value, &[]))
}

/// What an expression in a loop becomes with holes for the item and the index of the loop. It recurses as deep as the
/// expression nests.
pub fn made_holes<K: Declarations + Sizes>(
    alloc: Global,
    around: &K,
    e: &Source,
) -> Result<KeptHoles, OutOfMemory>
    requires { K.Sizes.sight around.now ≡ K.Declarations.sight around.now }
    ensures { ((f : Frame) → spec.expression (K.Declarations.sight around.now) (source_of e.now) (f ∷ [])
        ≡ fill f (spec.expression (K.Declarations.sight around.now) (source_of e.now) (holes ∷ [])))
        → IfOk result (IsKeptHoles
        (spec.expression (K.Declarations.sight around.now) (source_of e.now) (holes ∷ []))) }
{
    let holed = measured_holes(alloc, around, e)?;
    if !is_within(least_extent(holed)) {
        return Ok(beyond_holes(holed));
    }
    match hole_turns(alloc) {
        Ok(turns) => {
            let made = emitted(alloc, around, e, turns.as_slice());
            letting_go(keep_holes(holed, made), turns)
        }
        Err(error) => Err(error),
    }
}

/// What a value in a loop becomes with holes for the item and the index of the loop. It recurses as deep as the value
/// nests.
pub fn made_value_holes<K: Declarations + Sizes>(
    alloc: Global,
    around: &K,
    value: &SourceValue,
) -> Result<KeptHoles, OutOfMemory>
    requires { K.Sizes.sight around.now ≡ K.Declarations.sight around.now }
    ensures { ((f : Frame) → spec.value (K.Declarations.sight around.now) (value_of value.now) (f ∷ [])
        ≡ fill f (spec.value (K.Declarations.sight around.now) (value_of value.now) (holes ∷ [])))
        → IfOk result (IsKeptHoles
        (spec.value (K.Declarations.sight around.now) (value_of value.now) (holes ∷ []))) }
{
    let holed = measured_value_holes(alloc, around, value)?;
    if !is_within(least_extent(holed)) {
        return Ok(beyond_holes(holed));
    }
    match hole_turns(alloc) {
        Ok(turns) => {
            let made = emitted_value(alloc, around, value, turns.as_slice());
            letting_go(keep_holes(holed, made), turns)
        }
        Err(error) => Err(error),
    }
}
