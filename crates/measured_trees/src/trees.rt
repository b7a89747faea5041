//! The measures of what values become outside of expressions. The functions call each other, as deep as a value nests.
ghost use Rattle.std.specs.Prelude.{map, Some, option_map};
ghost use Rattle.bicep_resolved.specs.View.{source_of, property_of, value_of, sources, properties};
ghost use Rattle.tree_building.specs.Templates as t;
ghost use Rattle.measured_trees.specs.Extremes.{tree_extremes, items_extremes, members_extremes, value_extremes};
ghost use Rattle.measured_trees.specs.Measures.{Takes};
ghost use Rattle.tree_building.specs.Sight as spec;

use crate::extents::Extents;
use crate::measure::{Measure, of_expression, of_literal};
use crate::spans::{count_of, inside};
use arm_value::{OutOfMemory, Text};
use bicep_resolved::{Property, Source, SourceValue};
use measured_expressions::Span;
use std::alloc::Global;
use tree_building::literals::{has_copy, signed};

// What an expression takes.
fn expression<K: Extents>(
    alloc: Global,
    around: &K,
    e: &Source,
    spans: &[Span],
) -> Result<Measure, OutOfMemory>
    ensures { Takes spans.now result
        (λ fs. tree_extremes (t.expression (spec.expression (K.sight around.now) (source_of e.now) fs))) }
{
    let extent = around.extent(alloc, e, spans)?;
    Ok(of_expression(extent))
}

/// How much of the limits a value takes outside of expressions, inside loops, of which the nearest is the first. It
/// recurses as deep as the value nests.
///
/// # Errors
///
/// `OutOfMemory`.
#[cycle(measuring)]
#[tactic(auto, using(bicep_resolved::proofs::ViewLemmas::enums))]
pub fn measured_tree<K: Extents>(
    alloc: Global,
    around: &K,
    e: &Source,
    spans: &[Span],
) -> Result<Measure, OutOfMemory>
    ensures { Takes spans.now result (λ fs. tree_extremes (spec.tree (K.sight around.now) (source_of e.now) fs)) }
{
    match e {
        Source::Literal(_, _) => Ok(of_literal()),
        Source::Object(_, properties) => {
            if has_copy(properties.as_slice()) {
                expression(alloc, around, e, spans)
            } else {
                Ok(members(alloc, around, properties.as_slice(), spans)?.enclosed())
            }
        }
        Source::Array(_, items) => Ok(all(alloc, around, items.as_slice(), spans)?.enclosed()),
        Source::Prefix(_, prefix, inner) => match signed(*prefix, inner) {
            Some(_) => Ok(of_literal()),
            None => expression(alloc, around, e, spans),
        },
        Source::Name(_, _) => expression(alloc, around, e, spans),
        Source::Interpolated(_, _, _) => expression(alloc, around, e, spans),
        Source::Call(_, _, _) => expression(alloc, around, e, spans),
        Source::Instance(_) => expression(alloc, around, e, spans),
        Source::Field(_, _, _) => expression(alloc, around, e, spans),
        Source::Output(_, _, _) => expression(alloc, around, e, spans),
        Source::Member(_, _, _) => expression(alloc, around, e, spans),
        Source::Index(_, _, _) => expression(alloc, around, e, spans),
        Source::Binary(_, _, _) => expression(alloc, around, e, spans),
        Source::Conditional(_, _, _) => expression(alloc, around, e, spans),
    }
}

// What items take.
#[cycle(measuring)]
fn all<K: Extents>(
    alloc: Global,
    around: &K,
    items: &[Source],
    spans: &[Span],
) -> Result<Measure, OutOfMemory>
    ensures { Takes spans.now result
        (λ fs. items_extremes (spec.items (K.sight around.now) (sources (map source_of items.now)) fs)) }
{
    let mut all = Measure::nothing();
    for item in items {
        all = all.with(measured_tree(alloc, around, item, spans)?);
    }
    Ok(all.ended())
}

/// How much of the limits the value of a member, a variable or an output takes. The loop of an output has no name.
///
/// # Errors
///
/// `OutOfMemory`.
#[cycle(measuring)]
#[tactic(auto, using(bicep_resolved::proofs::ViewLemmas::enums, bicep_resolved::proofs::ViewLemmas::structs))]
pub fn measured_written<K: Extents>(
    alloc: Global,
    around: &K,
    name: Option<&Text>,
    value: &SourceValue,
    spans: &[Span],
) -> Result<Measure, OutOfMemory>
    ensures { Takes spans.now result (λ fs. value_extremes (spec.value (K.sight around.now)
        (option_map (λ t. t.now) name.entry) (value_of value.now) fs)) }
{
    match value {
        SourceValue::Plain(e) => measured_tree(alloc, around, e, spans),
        SourceValue::Each(each, body) => {
            let over = around.extent(alloc, &each.over, spans)?;
            let inside = inside(alloc, name, over, spans)?;
            let input = measured_tree(alloc, around, body, inside.as_slice())?;
            Ok(input.looped(count_of(over)))
        }
    }
}

// What a member takes.
#[cycle(measuring)]
#[tactic(auto, using(bicep_resolved::proofs::ViewLemmas::structs))]
fn member<K: Extents>(
    alloc: Global,
    around: &K,
    property: &Property,
    spans: &[Span],
) -> Result<Measure, OutOfMemory>
    ensures { Takes spans.now result (λ fs. value_extremes (spec.value (K.sight around.now)
        (Some (property_of property.now).1) (property_of property.now).2 fs)) }
{
    measured_written(alloc, around, Some(&property.name), &property.value, spans)
}

// What members take.
#[cycle(measuring)]
fn members<K: Extents>(
    alloc: Global,
    around: &K,
    items: &[Property],
    spans: &[Span],
) -> Result<Measure, OutOfMemory>
    ensures { Takes spans.now result
        (λ fs. members_extremes (spec.members (K.sight around.now) (properties (map property_of items.now)) fs)) }
{
    let mut all = Measure::nothing();
    for item in items {
        all = all.with(member(alloc, around, item, spans)?);
    }
    Ok(all.ended())
}
