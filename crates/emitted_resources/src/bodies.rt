//! The members of resources, over what declarations become.
ghost use Rattle.std.specs.Prelude.{◌≤◌, map};
ghost use Rattle.bicep_resolved.specs.View.{property_of, properties};
ghost use Rattle.emitted_expressions.specs.Sight.{frames_of};
ghost use Rattle.emitted_values.specs.Templates as t;
ghost use Rattle.measured_trees.specs.Extremes.{tree_extremes};
ghost use Rattle.measured_trees.specs.Measures.{Takes};
ghost use Rattle.emitted_values.specs.Built.{AreFields};
ghost use Rattle.emitted_values.specs.Depth.{members_depth};
ghost use Rattle.emitted_values.specs.Each.{MembersAreSmall};
ghost use Rattle.emitted_bodies.specs.Bodies.{body_members};

use arm_value::{Fields, OutOfMemory};
use bicep_resolved::Property;
use emitted_bodies::{built_body, measured_body};
use emitted_expressions::{Declarations, Turn};
use emitted_values::Expressions;
use measured_expressions::{Sizes, Span};
use measured_trees::Measure;
use std::alloc::Global;

/// The members that the fields of a resource become.
pub(crate) fn members<K: Declarations>(
    alloc: Global,
    declarations: &K,
    fields: &[Property],
    turns: &[Turn],
) -> Result<Fields, OutOfMemory>
    requires within { MembersAreSmall (body_members (K.sight declarations.now)
        (properties (map property_of fields.now)) (frames_of turns.now)) }
    requires nests { members_depth (body_members (K.sight declarations.now)
        (properties (map property_of fields.now)) (frames_of turns.now)) ≤ 119 }
    ensures { AreFields (body_members (K.sight declarations.now) (properties (map property_of fields.now))
        (frames_of turns.now)) result }
{
    let texts = Expressions { declarations };
    built_body(alloc, &texts, fields, turns)
}

/// How much of the limits of templates they take, as an object.
pub(crate) fn measured_members<K: Sizes>(
    alloc: Global,
    sizes: &K,
    fields: &[Property],
    spans: &[Span],
) -> Result<Measure, OutOfMemory>
    ensures { Takes spans.now result (λ fs. tree_extremes (t.object (body_members (K.sight sizes.now)
        (properties (map property_of fields.now)) fs))) }
{
    let extents = Expressions {
        declarations: sizes,
    };
    measured_body(alloc, &extents, fields, spans)
}
