//! What expressions become. The functions that emit parts call each other, as deep as the expression nests.
ghost use Rattle.std.specs.Prelude.{map};
ghost use Rattle.bicep_resolved.specs.View.{source_of, reach_of, value_of, piece_of, property_of};
ghost use Rattle.bicep_resolved.specs.View.{sources, pieces, properties, row_name};
ghost use Rattle.emitted_parts.specs.Built.{Is, Are};
ghost use Rattle.emitted_expressions.specs.Sight.{frames_of, AreFrames};
ghost use Rattle.emitted_expressions.specs.Values as spec;

use crate::declarations::Declarations;
use crate::fields::{field_of, name_of, named, output_of};
use crate::turns::{Turn, element};
use arm_expr::Expr;
use arm_value::{OutOfMemory, Text};
use bicep_resolved::{Piece, Property, Reach, Source, SourceValue};
use emitted_parts::accesses::{member, part};
use emitted_parts::calls::call;
use emitted_parts::functions::function_call;
use emitted_parts::literals::{literal, no_value};
use emitted_parts::operators::{binary, conditional, prefixed};
use emitted_parts::texts::format_argument;
use emitted_parts::with;
use std::alloc::Global;

/// What an expression becomes inside loops, of which the nearest is the first. It recurses as deep as the expression
/// nests.
#[cycle(emission)]
#[tactic(auto, using(bicep_resolved::proofs::ViewLemmas::enums))]
pub fn emitted<K: Declarations>(
    alloc: Global,
    around: &K,
    e: &Source,
    turns: &[Turn],
) -> Result<Expr, OutOfMemory>
    ensures { Is (spec.expression (K.sight around.now) (source_of e.now) (frames_of turns.now)) result }
{
    match e {
        Source::Name(_, meaning) => named(alloc, around, *meaning, turns),
        Source::Literal(_, value) => literal(alloc, value),
        Source::Interpolated(_, first, pieces) => {
            call(
                alloc,
                "format",
                holes(alloc, around, first, pieces.as_slice(), turns),
            )
        }
        Source::Object(_, properties) => {
            call(
                alloc,
                "createObject",
                members(alloc, around, properties.as_slice(), turns),
            )
        }
        Source::Array(_, items) => {
            call(
                alloc,
                "createArray",
                all(alloc, around, items.as_slice(), turns),
            )
        }
        Source::Call(_, row, args) => {
            function_call(alloc, row, all(alloc, around, args.as_slice(), turns))
        }
        Source::Instance(_) => no_value(alloc),
        Source::Field(reach, _, field) => {
            let inside = reached(alloc, around, reach, turns);
            field_of(alloc, around, reach.target().number(), field, inside)
        }
        Source::Output(reach, _, number) => {
            let inside = reached(alloc, around, reach, turns);
            output_of(alloc, around, reach.target(), *number, inside)
        }
        Source::Member(inner, selector, name) => {
            member(
                alloc,
                *selector,
                emitted(alloc, around, inner, turns),
                &name.text,
            )
        }
        Source::Index(inner, indexing, index) => {
            let value = emitted(alloc, around, inner, turns);
            let index = emitted(alloc, around, index, turns);
            part(alloc, *indexing, value, index)
        }
        Source::Prefix(_, prefix, inner) => {
            prefixed(alloc, *prefix, emitted(alloc, around, inner, turns))
        }
        Source::Binary(operator, left, right) => {
            let first = emitted(alloc, around, left, turns);
            let second = emitted(alloc, around, right, turns);
            binary(alloc, *operator, first, second)
        }
        Source::Conditional(condition, yes, no) => {
            let test = emitted(alloc, around, condition, turns);
            let first = emitted(alloc, around, yes, turns);
            let second = emitted(alloc, around, no, turns);
            conditional(alloc, test, first, second)
        }
    }
}

// What all of these become.
#[cycle(emission)]
fn all<K: Declarations>(
    alloc: Global,
    around: &K,
    items: &[Source],
    turns: &[Turn],
) -> Result<Vec<Expr>, OutOfMemory>
    ensures { Are (spec.all (K.sight around.now) (sources (map source_of items.now)) (frames_of turns.now)) result }
{
    let mut all = Vec::new(alloc);
    for item in items {
        match with(Ok(all), emitted(alloc, around, item, turns)) {
            Ok(more) => all = more,
            Err(error) => return Err(error),
        }
    }
    Ok(all)
}

// What the value of a hole becomes.
#[cycle(emission)]
#[tactic(auto, using(bicep_resolved::proofs::ViewLemmas::structs))]
fn hole<K: Declarations>(
    alloc: Global,
    around: &K,
    piece: &Piece,
    turns: &[Turn],
) -> Result<Expr, OutOfMemory>
    ensures { Is (spec.expression (K.sight around.now) (piece_of piece.now).0 (frames_of turns.now)) result }
{
    emitted(alloc, around, &piece.value, turns)
}

// The text of `format`, and what the values of its holes become.
#[cycle(emission)]
fn holes<K: Declarations>(
    alloc: Global,
    around: &K,
    first: &Text,
    items: &[Piece],
    turns: &[Turn],
) -> Result<Vec<Expr>, OutOfMemory>
    ensures { Are (spec.format (K.sight around.now) first.now (pieces (map piece_of items.now))
        (frames_of turns.now)) result }
{
    let mut all = match with(Ok(Vec::new(alloc)), format_argument(alloc, first, items)) {
        Ok(all) => all,
        Err(error) => return Err(error),
    };
    for item in items {
        match with(Ok(all), hole(alloc, around, item, turns)) {
            Ok(more) => all = more,
            Err(error) => return Err(error),
        }
    }
    Ok(all)
}

// What the value of a member becomes.
#[cycle(emission)]
#[tactic(auto, using(bicep_resolved::proofs::ViewLemmas::structs))]
fn value_in<K: Declarations>(
    alloc: Global,
    around: &K,
    property: &Property,
    turns: &[Turn],
) -> Result<Expr, OutOfMemory>
    ensures { Is (spec.value (K.sight around.now) (property_of property.now).2 (frames_of turns.now)) result }
{
    emitted_value(alloc, around, &property.value, turns)
}

// The names of members and what their values become, by turns.
#[cycle(emission)]
fn members<K: Declarations>(
    alloc: Global,
    around: &K,
    items: &[Property],
    turns: &[Turn],
) -> Result<Vec<Expr>, OutOfMemory>
    ensures { Are (spec.members (K.sight around.now) (properties (map property_of items.now))
        (frames_of turns.now)) result }
{
    let mut all = Vec::new(alloc);
    for item in items {
        let value = value_in(alloc, around, item, turns);
        match with(with(Ok(all), name_of(alloc, item)), value) {
            Ok(more) => all = more,
            Err(error) => return Err(error),
        }
    }
    Ok(all)
}

/// What the value of a variable, an output or a member becomes inside loops, of which the nearest is the first; a
/// for-expression becomes an expression without a value. It recurses as deep as the value nests.
#[cycle(emission)]
#[tactic(auto, using(bicep_resolved::proofs::ViewLemmas::enums))]
pub fn emitted_value<K: Declarations>(
    alloc: Global,
    around: &K,
    value: &SourceValue,
    turns: &[Turn],
) -> Result<Expr, OutOfMemory>
    ensures { Is (spec.value (K.sight around.now) (value_of value.now) (frames_of turns.now)) result }
{
    match value {
        SourceValue::Plain(e) => emitted(alloc, around, e, turns),
        SourceValue::Each(_, _) => no_value(alloc),
    }
}

// The loop around the declaration of a resource or a module, where one of its elements is used.
#[cycle(emission)]
#[tactic(auto, using(bicep_resolved::proofs::ViewLemmas::enums))]
fn reached<K: Declarations>(
    alloc: Global,
    around: &K,
    reach: &Reach,
    turns: &[Turn],
) -> Result<Vec<Turn>, OutOfMemory>
    ensures { AreFrames (spec.reached (K.sight around.now) (reach_of reach.now) (frames_of turns.now)) result }
{
    match reach {
        Reach::Symbol(_, _) => Ok(Vec::new(alloc)),
        Reach::Element(_, target, index) => {
            let items = around.items(alloc, target.number());
            element(alloc, items, emitted(alloc, around, index, turns))
        }
    }
}
