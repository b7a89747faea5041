//! The extents of what expressions become. The functions that measure parts call each other, as deep as the expression
//! nests.
ghost use Rattle.std.specs.Prelude.{map, IfOk};
ghost use Rattle.arm_expr.specs.Tree.{text as text_tree};
ghost use Rattle.bicep_emission.specs.Texts.{format_text as format_spec};
ghost use Rattle.emitted_sizes.specs.Extent.{IsOf};
ghost use Rattle.bicep_resolved.specs.View.{source_of, reach_of, value_of, piece_of, property_of};
ghost use Rattle.bicep_resolved.specs.View.{sources, pieces, properties};
ghost use Rattle.emitted_expressions.specs.Values as spec;
ghost use Rattle.measured_expressions.specs.Spans.{Measures, MeasuresAll, Reaches};

use crate::fields::{field_of, name_length, name_of, named, output_of};
use crate::sizes::Sizes;
use crate::spans::{Span, element};
use arm_value::{OutOfMemory, Text};
use bicep_resolved::{Piece, Property, Reach, Source, SourceValue};
use emitted_sizes::accesses::{member, part};
use emitted_sizes::calls::call;
use emitted_sizes::literals::{literal, no_value, text};
use emitted_sizes::operators::{binary, conditional, prefixed};
use emitted_sizes::texts::format_text;
use emitted_sizes::{Extent, Row};
use std::alloc::Global;

/// How much of the limits an expression takes as a template expression, inside loops, of which the nearest is the
/// first. It recurses as deep as the expression nests.
#[cycle(measures)]
#[tactic(auto, using(bicep_resolved::proofs::ViewLemmas::enums))]
pub fn measured<K: Sizes>(
    alloc: Global,
    around: &K,
    e: &Source,
    spans: &[Span],
) -> Result<Extent, OutOfMemory>
    ensures { Measures spans.now result (spec.expression (K.sight around.now) (source_of e.now)) }
{
    match e {
        Source::Name(_, meaning) => Ok(named(around, *meaning, spans)),
        Source::Literal(_, value) => Ok(literal(value)),
        Source::Interpolated(_, first, pieces) => {
            Ok(call(6, holes(alloc, around, first, pieces.as_slice(), spans)?))
        }
        Source::Object(_, properties) => {
            Ok(call(12, members(alloc, around, properties.as_slice(), spans)?))
        }
        Source::Array(_, items) => Ok(call(11, all(alloc, around, items.as_slice(), spans)?)),
        Source::Call(_, row, args) => {
            Ok(call(
                name_length(row),
                all(alloc, around, args.as_slice(), spans)?,
            ))
        }
        Source::Instance(_) => Ok(no_value()),
        Source::Field(reach, _, field) => {
            let span = reached(alloc, around, reach, spans)?;
            Ok(field_of(around, reach.target().number(), field, span))
        }
        Source::Output(reach, _, number) => {
            let span = reached(alloc, around, reach, spans)?;
            Ok(output_of(around, reach.target(), *number, span))
        }
        Source::Member(inner, selector, name) => {
            Ok(member(
                *selector,
                measured(alloc, around, inner, spans)?,
                &name.text,
            ))
        }
        Source::Index(inner, indexing, index) => {
            let value = measured(alloc, around, inner, spans)?;
            let index = measured(alloc, around, index, spans)?;
            Ok(part(*indexing, value, index))
        }
        Source::Prefix(_, prefix, inner) => {
            Ok(prefixed(*prefix, measured(alloc, around, inner, spans)?))
        }
        Source::Binary(operator, left, right) => {
            let first = measured(alloc, around, left, spans)?;
            let second = measured(alloc, around, right, spans)?;
            Ok(binary(*operator, first, second))
        }
        Source::Conditional(condition, yes, no) => {
            let test = measured(alloc, around, condition, spans)?;
            let first = measured(alloc, around, yes, spans)?;
            let second = measured(alloc, around, no, spans)?;
            Ok(conditional(test, first, second))
        }
    }
}

// Of all of these.
#[cycle(measures)]
fn all<K: Sizes>(
    alloc: Global,
    around: &K,
    items: &[Source],
    spans: &[Span],
) -> Result<Extent, OutOfMemory>
    ensures { MeasuresAll spans.now result (spec.all (K.sight around.now) (sources (map source_of items.now))) }
{
    let mut row = Row::new();
    for item in items {
        row = row.with(measured(alloc, around, item, spans)?);
    }
    Ok(row.end())
}

// Of the value of a hole.
#[cycle(measures)]
#[tactic(auto, using(bicep_resolved::proofs::ViewLemmas::structs))]
fn hole<K: Sizes>(
    alloc: Global,
    around: &K,
    piece: &Piece,
    spans: &[Span],
) -> Result<Extent, OutOfMemory>
    ensures { Measures spans.now result (spec.expression (K.sight around.now) (piece_of piece.now).0) }
{
    measured(alloc, around, &piece.value, spans)
}

// The extent of the text of `format`.
fn first_argument(alloc: Global, first: &Text, items: &[Piece]) -> Result<Extent, OutOfMemory>
    ensures { IfOk result (IsOf (text_tree (format_spec 0 first.now (pieces (map piece_of items.now))))) }
{
    match format_text(alloc, first, items) {
        Ok(characters) => Ok(text(&characters)),
        Err(error) => Err(error),
    }
}

// Of the text of `format`, and of the values of its holes.
#[cycle(measures)]
fn holes<K: Sizes>(
    alloc: Global,
    around: &K,
    first: &Text,
    items: &[Piece],
    spans: &[Span],
) -> Result<Extent, OutOfMemory>
    ensures { MeasuresAll spans.now result
        (spec.format (K.sight around.now) first.now (pieces (map piece_of items.now))) }
{
    let mut row = Row::new().with(first_argument(alloc, first, items)?);
    for item in items {
        row = row.with(hole(alloc, around, item, spans)?);
    }
    Ok(row.end())
}

// Of the value of a member.
#[cycle(measures)]
#[tactic(auto, using(bicep_resolved::proofs::ViewLemmas::structs))]
fn value_in<K: Sizes>(
    alloc: Global,
    around: &K,
    property: &Property,
    spans: &[Span],
) -> Result<Extent, OutOfMemory>
    ensures { Measures spans.now result (spec.value (K.sight around.now) (property_of property.now).2) }
{
    measured_value(alloc, around, &property.value, spans)
}

// Of the names of members and of their values, by turns.
#[cycle(measures)]
fn members<K: Sizes>(
    alloc: Global,
    around: &K,
    items: &[Property],
    spans: &[Span],
) -> Result<Extent, OutOfMemory>
    ensures { MeasuresAll spans.now result
        (spec.members (K.sight around.now) (properties (map property_of items.now))) }
{
    let mut row = Row::new();
    for item in items {
        row = row
            .with(name_of(item))
            .with(value_in(alloc, around, item, spans)?);
    }
    Ok(row.end())
}

/// How much of the limits the value of a variable, an output or a member takes as a template expression, inside loops,
/// of which the nearest is the first. It recurses as deep as the value nests.
#[cycle(measures)]
#[tactic(auto, using(bicep_resolved::proofs::ViewLemmas::enums))]
pub fn measured_value<K: Sizes>(
    alloc: Global,
    around: &K,
    value: &SourceValue,
    spans: &[Span],
) -> Result<Extent, OutOfMemory>
    ensures { Measures spans.now result (spec.value (K.sight around.now) (value_of value.now)) }
{
    match value {
        SourceValue::Plain(e) => measured(alloc, around, e, spans),
        SourceValue::Each(_, _) => Ok(no_value()),
    }
}

// Of the loop around the declaration of a resource or a module, where one of its elements is used.
#[cycle(measures)]
#[tactic(auto, using(bicep_resolved::proofs::ViewLemmas::enums))]
fn reached<K: Sizes>(
    alloc: Global,
    around: &K,
    reach: &Reach,
    spans: &[Span],
) -> Result<Option<Span>, OutOfMemory>
    ensures { Reaches spans.now result (spec.reached (K.sight around.now) (reach_of reach.now)) }
{
    match reach {
        Reach::Symbol(_, _) => Ok(None),
        Reach::Element(_, target, index) => {
            let items = around.items(target.number());
            Ok(Some(element(items, measured(alloc, around, index, spans)?)))
        }
    }
}
