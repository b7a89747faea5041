//! What values become outside of expressions. The functions call each other, as deep as a value nests.
ghost use Rattle.std.specs.Prelude.{◌≤◌, [], Some, map, option_map};
ghost use Rattle.bicep_resolved.specs.View.{source_of, property_of, value_of, sources, properties};
ghost use Rattle.emitted_expressions.specs.Sight.{frames_of};
ghost use Rattle.emitted_trees.specs.Templates as t;
ghost use Rattle.tree_building.specs.Each.{IsSmall, AreSmall, ItemsAreSmall, MembersAreSmall, ValueIsSmall};
ghost use Rattle.tree_building.specs.Built.{IsTree, AreItems, IsValue, AreParts, members_of, grown, all_grown};
ghost use Rattle.tree_building.specs.Depth.{depth, items_depth, members_depth, value_depth};
ghost use Rattle.tree_building.specs.Sight as spec;

use crate::literals::{has_copy, literal, signed};
use crate::parts::{
    Parts, Written, array_of, loop_written, no_parts, object_of, tree_written, with_item,
    with_written,
};
use crate::texts::Texts;
use arm_value::{Items, OutOfMemory, Text, Value};
use bicep_resolved::{Property, Source, SourceValue};
use emitted_expressions::{Turn, lacks, letting_go};
use std::alloc::Global;

// The text of what an expression becomes.
fn expression<K: Texts>(
    alloc: Global,
    texts: &K,
    e: &Source,
    turns: &[Turn],
) -> Result<Value, OutOfMemory>
    requires { IsSmall (spec.expression (K.sight texts.now) (source_of e.now) (frames_of turns.now)) }
    ensures { IsTree (t.expression (spec.expression (K.sight texts.now) (source_of e.now) (frames_of turns.now)))
        result }
{
    match texts.text(alloc, e, turns) {
        Ok(text) => Ok(Value::Text(text)),
        Err(error) => Err(error),
    }
}

/// What a value becomes outside of expressions, inside loops, of which the nearest is the first. Its expressions are
/// within the limits of templates. It recurses as deep as the value nests.
///
/// # Errors
///
/// `OutOfMemory`.
#[cycle(building)]
#[tactic(auto, using(bicep_resolved::proofs::ViewLemmas::enums))]
pub fn tree<K: Texts>(
    alloc: Global,
    texts: &K,
    e: &Source,
    turns: &[Turn],
) -> Result<Value, OutOfMemory>
    requires within { AreSmall (spec.tree (K.sight texts.now) (source_of e.now) (frames_of turns.now)) }
    requires nests { depth (spec.tree (K.sight texts.now) (source_of e.now) (frames_of turns.now)) ≤ 119 }
    ensures { IsTree (spec.tree (K.sight texts.now) (source_of e.now) (frames_of turns.now)) result }
{
    match e {
        Source::Literal(_, value) => literal(alloc, value),
        Source::Object(_, properties) => {
            if has_copy(properties.as_slice()) {
                expression(alloc, texts, e, turns)
            } else {
                object_of(alloc, members(alloc, texts, properties.as_slice(), turns))
            }
        }
        Source::Array(_, items) => array_of(all(alloc, texts, items.as_slice(), turns)),
        Source::Prefix(_, prefix, inner) => match signed(*prefix, inner) {
            Some(number) => Ok(Value::Int(number)),
            None => expression(alloc, texts, e, turns),
        },
        Source::Name(_, _) => expression(alloc, texts, e, turns),
        Source::Interpolated(_, _, _) => expression(alloc, texts, e, turns),
        Source::Call(_, _, _) => expression(alloc, texts, e, turns),
        Source::Instance(_) => expression(alloc, texts, e, turns),
        Source::Field(_, _, _) => expression(alloc, texts, e, turns),
        Source::Output(_, _, _) => expression(alloc, texts, e, turns),
        Source::Member(_, _, _) => expression(alloc, texts, e, turns),
        Source::Index(_, _, _) => expression(alloc, texts, e, turns),
        Source::Binary(_, _, _) => expression(alloc, texts, e, turns),
        Source::Conditional(_, _, _) => expression(alloc, texts, e, turns),
    }
}

// What items become.
#[cycle(building)]
fn all<K: Texts>(
    alloc: Global,
    texts: &K,
    items: &[Source],
    turns: &[Turn],
) -> Result<Items, OutOfMemory>
    requires within { ItemsAreSmall (spec.items (K.sight texts.now) (sources (map source_of items.now))
        (frames_of turns.now)) }
    requires nests { items_depth (spec.items (K.sight texts.now) (sources (map source_of items.now))
        (frames_of turns.now)) ≤ 119 }
    ensures { AreItems (spec.items (K.sight texts.now) (sources (map source_of items.now)) (frames_of turns.now))
        result }
{
    let mut all = Items::new();
    for item in items {
        match with_item(alloc, all, tree(alloc, texts, item, turns)) {
            Ok(more) => all = more,
            Err(error) => return Err(error),
        }
    }
    Ok(all)
}

/// What the value of a member, a variable or an output becomes. The loop of an output has no name.
///
/// # Errors
///
/// `OutOfMemory`.
#[cycle(building)]
#[tactic(auto, using(bicep_resolved::proofs::ViewLemmas::enums, bicep_resolved::proofs::ViewLemmas::structs))]
pub fn written<K: Texts>(
    alloc: Global,
    texts: &K,
    name: Option<&Text>,
    value: &SourceValue,
    turns: &[Turn],
) -> Result<Written, OutOfMemory>
    requires within { ValueIsSmall (spec.value (K.sight texts.now) (option_map (λ t. t.now) name)
        (value_of value.now) (frames_of turns.now)) }
    requires nests { value_depth (spec.value (K.sight texts.now) (option_map (λ t. t.now) name)
        (value_of value.now) (frames_of turns.now)) ≤ 119 }
    ensures { IsValue (spec.value (K.sight texts.now) (option_map (λ t. t.now) name.entry) (value_of value.now)
        (frames_of turns.now)) result }
{
    match value {
        SourceValue::Plain(e) => tree_written(tree(alloc, texts, e, turns)),
        SourceValue::Each(each, body) => {
            let count = texts.count(alloc, &each.over, turns);
            match texts.inside(alloc, name, &each.over, turns) {
                Ok(inside) => {
                    let input = tree(alloc, texts, body, inside.as_slice());
                    letting_go(loop_written(count, input), inside)
                }
                Err(_) => lacks(count),
            }
        }
    }
}

/// The members so far, with what one more becomes. Of members of one name the last stays.
///
/// # Errors
///
/// `OutOfMemory`.
#[cycle(building)]
#[tactic(auto, using(bicep_resolved::proofs::ViewLemmas::structs))]
pub fn with_member<K: Texts>(
    alloc: Global,
    texts: &K,
    parts: Parts,
    property: &Property,
    turns: &[Turn],
) -> Result<Parts, OutOfMemory>
    requires within { ValueIsSmall (spec.value (K.sight texts.now) (Some (property_of property.now).1)
        (property_of property.now).2 (frames_of turns.now)) }
    requires nests { value_depth (spec.value (K.sight texts.now) (Some (property_of property.now).1)
        (property_of property.now).2 (frames_of turns.now)) ≤ 119 }
    ensures { AreParts (grown (property_of property.now).1 (spec.value (K.sight texts.now)
        (Some (property_of property.now).1) (property_of property.now).2 (frames_of turns.now)) (members_of parts))
        result }
{
    let made = written(alloc, texts, Some(&property.name), &property.value, turns);
    with_written(alloc, parts, &property.name, made)
}

// What members become.
#[cycle(building)]
fn members<K: Texts>(
    alloc: Global,
    texts: &K,
    items: &[Property],
    turns: &[Turn],
) -> Result<Parts, OutOfMemory>
    requires within { MembersAreSmall (spec.members (K.sight texts.now) (properties (map property_of items.now))
        (frames_of turns.now)) }
    requires nests { members_depth (spec.members (K.sight texts.now) (properties (map property_of items.now))
        (frames_of turns.now)) ≤ 119 }
    ensures { AreParts (all_grown (spec.members (K.sight texts.now) (properties (map property_of items.now))
        (frames_of turns.now)) ([], [])) result }
{
    let mut parts = no_parts();
    for item in items {
        match with_member(alloc, texts, parts, item, turns) {
            Ok(more) => parts = more,
            Err(error) => return Err(error),
        }
    }
    Ok(parts)
}
