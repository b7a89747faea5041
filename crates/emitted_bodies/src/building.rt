//! Bodies that are built.
ghost use Rattle.std.specs.Prelude.{◌≤◌, ◌∷◌, [], map};
ghost use Rattle.bicep_resolved.specs.View.{property_of, properties};
ghost use Rattle.emitted_expressions.specs.Sight.{frames_of};
ghost use Rattle.tree_building.specs.Built.{AreParts, AreFields, members_of, all_grown};
ghost use Rattle.tree_building.specs.Depth.{members_depth};
ghost use Rattle.tree_building.specs.Each.{MembersAreSmall};
ghost use Rattle.emitted_bodies.specs.Bodies.{body_members};

use crate::fields::is_own;
use arm_value::{Fields, OutOfMemory};
use bicep_resolved::Property;
use emitted_expressions::Turn;
use std::alloc::Global;
use tree_building::{Parts, Texts, fields_of, no_parts, with_member};

// The members so far, with what one more field becomes, where it is a member of the body.
fn with_field<K: Texts>(
    alloc: Global,
    texts: &K,
    parts: Parts,
    field: &Property,
    turns: &[Turn],
) -> Result<Parts, OutOfMemory>
    requires within { MembersAreSmall (body_members (K.sight texts.now) (properties (property_of field.now ∷ []))
        (frames_of turns.now)) }
    requires nests { members_depth (body_members (K.sight texts.now) (properties (property_of field.now ∷ []))
        (frames_of turns.now)) ≤ 119 }
    ensures { AreParts (all_grown (body_members (K.sight texts.now) (properties (property_of field.now ∷ []))
        (frames_of turns.now)) (members_of parts)) result }
{
    if is_own(field) {
        return Ok(parts);
    }
    with_member(alloc, texts, parts, field, turns)
}

// What the fields become that are members of the body.
fn all_fields<K: Texts>(
    alloc: Global,
    texts: &K,
    fields: &[Property],
    turns: &[Turn],
) -> Result<Parts, OutOfMemory>
    requires within { MembersAreSmall (body_members (K.sight texts.now) (properties (map property_of fields.now))
        (frames_of turns.now)) }
    requires nests { members_depth (body_members (K.sight texts.now) (properties (map property_of fields.now))
        (frames_of turns.now)) ≤ 119 }
    ensures { AreParts (all_grown (body_members (K.sight texts.now) (properties (map property_of fields.now))
        (frames_of turns.now)) ([], [])) result }
{
    let mut parts = no_parts();
    for field in fields {
        match with_field(alloc, texts, parts, field, turns) {
            Ok(more) => parts = more,
            Err(error) => return Err(error),
        }
    }
    Ok(parts)
}

/// The members of a resource that its fields become, inside the loop around it, where there is one. The expressions in
/// them are within the limits of templates.
///
/// # Errors
///
/// `OutOfMemory`.
pub fn built_body<K: Texts>(
    alloc: Global,
    texts: &K,
    fields: &[Property],
    turns: &[Turn],
) -> Result<Fields, OutOfMemory>
    requires within { MembersAreSmall (body_members (K.sight texts.now) (properties (map property_of fields.now))
        (frames_of turns.now)) }
    requires nests { members_depth (body_members (K.sight texts.now) (properties (map property_of fields.now))
        (frames_of turns.now)) ≤ 119 }
    ensures { AreFields (body_members (K.sight texts.now) (properties (map property_of fields.now))
        (frames_of turns.now)) result }
{
    let parts = all_fields(alloc, texts, fields, turns);
    fields_of(alloc, parts)
}
