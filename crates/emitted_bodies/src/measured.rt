//! How much of the limits of templates bodies take.
ghost use Rattle.std.specs.Prelude.{◌∷◌, [], map};
ghost use Rattle.bicep_resolved.specs.View.{property_of, properties};
ghost use Rattle.tree_building.specs.Templates as t;
ghost use Rattle.measured_trees.specs.Extremes.{tree_extremes, members_extremes};
ghost use Rattle.measured_trees.specs.Measures.{Takes};
ghost use Rattle.emitted_bodies.specs.Bodies.{body_members};

use crate::fields::is_own;
use arm_value::OutOfMemory;
use bicep_resolved::Property;
use measured_expressions::Span;
use measured_trees::{Extents, Measure, measured_written};
use std::alloc::Global;

// What a field takes, where it is a member of the body.
#[tactic(auto, using(bicep_resolved::proofs::ViewLemmas::structs))]
fn measured_field<K: Extents>(
    alloc: Global,
    around: &K,
    field: &Property,
    spans: &[Span],
) -> Result<Measure, OutOfMemory>
    ensures { Takes spans.now result (λ fs. members_extremes (body_members (K.sight around.now)
        (properties (property_of field.now ∷ [])) fs)) }
{
    if is_own(field) {
        return Ok(Measure::nothing());
    }
    measured_written(alloc, around, Some(&field.name), &field.value, spans)
}

// What the fields take that are members of the body.
fn measured_fields<K: Extents>(
    alloc: Global,
    around: &K,
    fields: &[Property],
    spans: &[Span],
) -> Result<Measure, OutOfMemory>
    ensures { Takes spans.now result (λ fs. members_extremes (body_members (K.sight around.now)
        (properties (map property_of fields.now)) fs)) }
{
    let mut all = Measure::nothing();
    for field in fields {
        all = all.with(measured_field(alloc, around, field, spans)?);
    }
    Ok(all.ended())
}

/// How much of the limits of templates the members of a resource take that its fields become, inside the loop around
/// it, where there is one. The resource itself is the object around them.
///
/// # Errors
///
/// `OutOfMemory`.
pub fn measured_body<K: Extents>(
    alloc: Global,
    around: &K,
    fields: &[Property],
    spans: &[Span],
) -> Result<Measure, OutOfMemory>
    ensures { Takes spans.now result (λ fs. tree_extremes (t.object (body_members (K.sight around.now)
        (properties (map property_of fields.now)) fs))) }
{
    Ok(measured_fields(alloc, around, fields, spans)?.enclosed())
}
