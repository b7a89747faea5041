// The type of an expression. The functions that look at parts call each other, as deep as the expression nests.
ghost use Rattle.std.specs.Prelude.{◌≡◌, map, Result, Option};
ghost use Rattle.bicep_resolved.specs.View.{source_of, reach_of, value_of, piece_of, property_of};
ghost use Rattle.bicep_resolved.specs.View.{sources, pieces, properties, row_name};
ghost use Rattle.bicep_resolved.specs.Source as tree;
ghost use Rattle.bicep_typing.specs.Names.{types_in};
ghost use Rattle.bicep_typing.specs.Typing as spec;

use crate::calls::{Ways, taken, value_of_ways, ways_at};
use crate::names::{field_type, name_type, output_type};
use crate::operators::{
    conditional_type, each_type, element_type, literal_type, member_type, operator_type,
    prefix_type,
};
use crate::reaches::{element_of, single};
use crate::typed::{Fitting, Typed, after, whole};
use arm_functions::Row;
use bicep_resolved::{Field, Piece, Property, Reach, Source, SourceValue};
use bicep_signatures::ValueType;

/// The type of an expression, or the offset of the first part that does not fit, by the types of the symbols of its
/// file and of the outputs of the files of its program. It takes no memory.
#[cycle(types)]
#[tactic(auto, using(bicep_resolved::proofs::ViewLemmas::enums))]
pub fn type_of(symbols: &[ValueType], outputs: &[Vec<ValueType>], e: &Source) -> Typed
    ensures { result ≡ spec.type_of (types_in symbols.now outputs.now) (source_of e.now) }
{
    match e {
        Source::Name(_, meaning) => Ok(name_type(symbols, *meaning)),
        Source::Literal(_, literal) => Ok(literal_type(literal)),
        Source::Interpolated(_, _, pieces) => {
            whole(ValueType::Text, holes_fit(symbols, outputs, pieces))
        }
        Source::Object(_, members) => {
            whole(ValueType::Object, properties_fit(symbols, outputs, members))
        }
        Source::Array(_, members) => {
            whole(ValueType::Array, members_fit(symbols, outputs, members))
        }
        Source::Call(at, row, arguments) => call_type(symbols, outputs, *at, row, arguments),
        Source::Instance(reach) => Err(reach.at()),
        Source::Field(reach, at, field) => field_of(symbols, outputs, reach, *at, field),
        Source::Output(reach, at, number) => output_of(symbols, outputs, reach, *at, *number),
        Source::Member(inner, selector, _) => {
            let given = type_of(symbols, outputs, inner);
            member_type(*selector, inner.at(), given)
        }
        Source::Index(inner, indexing, index) => {
            let given = type_of(symbols, outputs, inner);
            let place = type_of(symbols, outputs, index);
            element_type(*indexing, inner.at(), given, index.at(), place)
        }
        Source::Prefix(_, prefix, inner) => {
            let given = type_of(symbols, outputs, inner);
            prefix_type(*prefix, inner.at(), given)
        }
        Source::Binary(operator, left, right) => {
            let first = type_of(symbols, outputs, left);
            let second = type_of(symbols, outputs, right);
            operator_type(*operator, left.at(), first, right.at(), second)
        }
        Source::Conditional(condition, left, right) => {
            let given = type_of(symbols, outputs, condition);
            let first = type_of(symbols, outputs, left);
            let second = type_of(symbols, outputs, right);
            conditional_type(condition.at(), given, first, second)
        }
    }
}

// A call at a place.
#[cycle(types)]
#[tactic(auto, using(crate::proofs::CallLemmas::counted))]
fn call_type(
    symbols: &[ValueType],
    outputs: &[Vec<ValueType>],
    at: usize,
    row: &Row,
    arguments: &[Source],
) -> Typed
    ensures { result ≡ spec.type_of (types_in symbols.now outputs.now)
        (tree.call at (row_name row.now) (sources (map source_of arguments.now))) }
{
    let ways = ways_at(row, arguments.len(), at);
    let left = arguments_left(symbols, outputs, arguments, ways);
    value_of_ways(left, at)
}

// The ways to call a function that are left after its arguments.
#[cycle(types)]
fn arguments_left(
    symbols: &[ValueType],
    outputs: &[Vec<ValueType>],
    arguments: &[Source],
    ways: Ways,
) -> Ways
    ensures { result ≡ spec.arguments_left (types_in symbols.now outputs.now)
        (sources (map source_of arguments.now)) ways }
{
    let mut left = ways;
    for argument in arguments {
        let given = type_of(symbols, outputs, argument);
        left = taken(left, argument.at(), given);
    }
    left
}

// The members of an array.
#[cycle(types)]
fn members_fit(symbols: &[ValueType], outputs: &[Vec<ValueType>], members: &[Source]) -> Fitting
    ensures { result ≡ spec.members_fit (types_in symbols.now outputs.now) (sources (map source_of members.now)) }
{
    for member in members {
        match type_of(symbols, outputs, member) {
            Ok(_) => {}
            Err(fault) => return Err(fault),
        }
    }
    Ok(())
}

// The holes of an interpolated text.
#[cycle(types)]
fn holes_fit(symbols: &[ValueType], outputs: &[Vec<ValueType>], holes: &[Piece]) -> Fitting
    ensures { result ≡ spec.holes_fit (types_in symbols.now outputs.now) (pieces (map piece_of holes.now)) }
{
    for hole in holes {
        match hole_type(symbols, outputs, hole) {
            Ok(_) => {}
            Err(fault) => return Err(fault),
        }
    }
    Ok(())
}

// The value of a hole.
#[cycle(types)]
#[tactic(auto, using(bicep_resolved::proofs::ViewLemmas::structs))]
fn hole_type(symbols: &[ValueType], outputs: &[Vec<ValueType>], hole: &Piece) -> Typed
    ensures { result ≡ spec.type_of (types_in symbols.now outputs.now) (piece_of hole.now).0 }
{
    type_of(symbols, outputs, &hole.value)
}

// The value of a member of an object.
#[cycle(types)]
#[tactic(auto, using(bicep_resolved::proofs::ViewLemmas::structs))]
fn member_value_type(symbols: &[ValueType], outputs: &[Vec<ValueType>], member: &Property) -> Typed
    ensures { result ≡ spec.value_type (types_in symbols.now outputs.now) (property_of member.now).2 }
{
    value_type(symbols, outputs, &member.value)
}

// The members of an object.
#[cycle(types)]
fn properties_fit(
    symbols: &[ValueType],
    outputs: &[Vec<ValueType>],
    members: &[Property],
) -> Fitting
    ensures { result ≡ spec.properties_fit (types_in symbols.now outputs.now)
        (properties (map property_of members.now)) }
{
    for member in members {
        match member_value_type(symbols, outputs, member) {
            Ok(_) => {}
            Err(fault) => return Err(fault),
        }
    }
    Ok(())
}

/// The type of the value of a variable, an output or a member, or the offset of the first part that does not fit. It
/// takes no memory.
#[cycle(types)]
#[tactic(auto, using(bicep_resolved::proofs::ViewLemmas::enums, bicep_resolved::proofs::ViewLemmas::structs))]
pub fn value_type(symbols: &[ValueType], outputs: &[Vec<ValueType>], value: &SourceValue) -> Typed
    ensures { result ≡ spec.value_type (types_in symbols.now outputs.now) (value_of value.now) }
{
    match value {
        SourceValue::Plain(e) => type_of(symbols, outputs, e),
        SourceValue::Each(each, body) => {
            let over = type_of(symbols, outputs, &each.over);
            let given = type_of(symbols, outputs, body);
            each_type(each.over.at(), over, given)
        }
    }
}

/// That a resource or a module is one whose fields may be asked for: a symbol that is no loop, or an element of a loop;
/// or the offset of the first part that does not fit. It takes no memory.
#[cycle(types)]
#[tactic(auto, using(bicep_resolved::proofs::ViewLemmas::enums))]
pub fn reach_fits(symbols: &[ValueType], outputs: &[Vec<ValueType>], reach: &Reach) -> Fitting
    ensures { result ≡ spec.reach_fits (types_in symbols.now outputs.now) (reach_of reach.now) }
{
    match reach {
        Reach::Symbol(at, target) => single(*at, *target),
        Reach::Element(at, target, index) => {
            let given = type_of(symbols, outputs, index);
            element_of(*at, *target, index.at(), given)
        }
    }
}

// A field of a resource or a module.
#[cycle(types)]
fn field_of(
    symbols: &[ValueType],
    outputs: &[Vec<ValueType>],
    reach: &Reach,
    at: usize,
    field: &Field,
) -> Typed
    ensures { result ≡ spec.type_of (types_in symbols.now outputs.now)
        (tree.field (reach_of reach.now) at field.now) }
{
    let parts = reach_fits(symbols, outputs, reach);
    after(parts, field_type(reach.target(), at, field))
}

// An output of a module.
#[cycle(types)]
fn output_of(
    symbols: &[ValueType],
    outputs: &[Vec<ValueType>],
    reach: &Reach,
    at: usize,
    number: usize,
) -> Typed
    ensures { result ≡ spec.type_of (types_in symbols.now outputs.now)
        (tree.output (reach_of reach.now) at number) }
{
    let parts = reach_fits(symbols, outputs, reach);
    after(parts, output_type(outputs, reach.target(), at, number))
}
