// Whether an expression reads state.
ghost use Rattle.std.specs.Prelude.{◌≡◌, ◌||◌, ◌∷◌, Bool, map, true, IfOk};
ghost use Rattle.bicep_resolved.specs.View as view;
ghost use Rattle.bicep_resolved.specs.View.{sources, pieces, properties};
ghost use Rattle.bicep_mentions.specs.States as spec;
ghost use Rattle.bicep_states.specs.View.{known};

use crate::table::StateTable;
use arm_value::OutOfMemory;
use bicep_resolved::{
    Field, Meaning, Piece, Property, Reach, Source, SourceLoop, SourceValue, Target,
};
use std::alloc::Global;

/// Whether one of two reads state.
pub(crate) fn either(
    first: Result<bool, OutOfMemory>,
    second: Result<bool, OutOfMemory>,
) -> Result<bool, OutOfMemory>
    ensures { (a b : Bool) → IfOk first (λ x. x ≡ a) → IfOk second (λ x. x ≡ b) → IfOk result (λ x. x ≡ (a || b)) }
{
    match first {
        Ok(true) => Ok(true),
        Ok(false) => second,
        Err(refused) => Err(refused),
    }
}

/// Whether one of three reads state.
pub(crate) fn one_of_three(
    first: Result<bool, OutOfMemory>,
    second: Result<bool, OutOfMemory>,
    third: Result<bool, OutOfMemory>,
) -> Result<bool, OutOfMemory>
    ensures { (a b c : Bool) → IfOk first (λ x. x ≡ a) → IfOk second (λ x. x ≡ b) → IfOk third (λ x. x ≡ c)
        → IfOk result (λ x. x ≡ (a || (b || c))) }
{
    either(first, either(second, third))
}

// Loops, of which one is around these.
fn with_loop(alloc: Global, reads: bool, items: &[bool]) -> Result<Vec<bool>, OutOfMemory>
    ensures { IfOk result (λ v. v.items ≡ reads ∷ items.now) }
{
    let mut inner = Vec::new(alloc);
    inner.push(reads)?;
    for item in items {
        inner.push(*item)?;
    }
    Ok(inner)
}

fn name_reads(table: &StateTable, meaning: Meaning, items: &[bool]) -> bool
    ensures { result ≡ spec.name_reads (known table.now) meaning items.now }
{
    match meaning {
        Meaning::Parameter(_) | Meaning::Index(_) => false,
        Meaning::Variable(number) => table.own_reads(number),
        Meaning::Item(place) => items.get(place).copied().unwrap_or(false),
    }
}

fn resource_field_reads(table: &StateTable, number: usize, field: &Field) -> bool
    ensures { result ≡ spec.resource_field_reads (known table.now) number field.now }
{
    match field {
        Field::Id => table.whole_reads(number),
        Field::Name => table.own_reads(number),
        Field::Type | Field::ApiVersion => false,
        Field::Properties | Field::Outputs | Field::Other(_) => true,
    }
}

fn module_field_reads(table: &StateTable, number: usize, field: &Field) -> bool
    ensures { result ≡ spec.module_field_reads (known table.now) number field.now }
{
    match field {
        Field::Name => table.own_reads(number),
        Field::Id
        | Field::Type
        | Field::ApiVersion
        | Field::Properties
        | Field::Outputs
        | Field::Other(_) => false,
    }
}

fn field_reads(table: &StateTable, target: Target, field: &Field) -> bool
    ensures { result ≡ spec.field_reads (known table.now) target field.now }
{
    match target {
        Target::Resource(number) | Target::ResourceLoop(number) => {
            resource_field_reads(table, number, field)
        }
        Target::Module(number, _) | Target::ModuleLoop(number, _) => {
            module_field_reads(table, number, field)
        }
    }
}

/// Whether an expression inside loops reads state. `items` has for each loop, the nearest first, whether its items do.
#[cycle(reads)]
#[tactic(auto, using(bicep_resolved::proofs::ViewLemmas::enums))]
pub(crate) fn reads_state(
    alloc: Global,
    table: &StateTable,
    e: &Source,
    items: &[bool],
) -> Result<bool, OutOfMemory>
    ensures { IfOk result (λ x. x ≡ spec.reads_state (known table.now) (view.source_of e.now) items.now) }
{
    match e {
        Source::Name(_, meaning) => Ok(name_reads(table, *meaning, items)),
        Source::Literal(_, _) => Ok(false),
        Source::Interpolated(_, _, parts) => piece_reads(alloc, table, parts.as_slice(), items),
        Source::Object(_, members) => property_reads(alloc, table, members.as_slice(), items),
        Source::Array(_, es) => any_reads(alloc, table, es.as_slice(), items),
        Source::Call(_, _, es) => any_reads(alloc, table, es.as_slice(), items),
        Source::Instance(reach) => reach_reads(alloc, table, reach, items),
        Source::Field(reach, _, field) => either(
            reach_reads(alloc, table, reach, items),
            Ok(field_reads(table, reach.target(), field)),
        ),
        Source::Output(_, _, _) => Ok(true),
        Source::Member(whole, _, _) => reads_state(alloc, table, whole, items),
        Source::Index(whole, _, index) => either(
            reads_state(alloc, table, whole, items),
            reads_state(alloc, table, index, items),
        ),
        Source::Prefix(_, _, operand) => reads_state(alloc, table, operand, items),
        Source::Binary(_, first, second) => either(
            reads_state(alloc, table, first, items),
            reads_state(alloc, table, second, items),
        ),
        Source::Conditional(condition, yes, no) => one_of_three(
            reads_state(alloc, table, condition, items),
            reads_state(alloc, table, yes, items),
            reads_state(alloc, table, no, items),
        ),
    }
}

/// Whether the index of an element does.
#[cycle(reads)]
#[tactic(auto, using(bicep_resolved::proofs::ViewLemmas::enums))]
pub(crate) fn reach_reads(
    alloc: Global,
    table: &StateTable,
    reach: &Reach,
    items: &[bool],
) -> Result<bool, OutOfMemory>
    ensures { IfOk result (λ x. x ≡ spec.reach_reads (known table.now) (view.reach_of reach.now) items.now) }
{
    match reach {
        Reach::Symbol(_, _) => Ok(false),
        Reach::Element(_, _, index) => reads_state(alloc, table, index, items),
    }
}

#[cycle(reads)]
fn any_reads(
    alloc: Global,
    table: &StateTable,
    es: &[Source],
    items: &[bool],
) -> Result<bool, OutOfMemory>
    ensures { IfOk result (λ x. x
        ≡ spec.any_reads (known table.now) (sources (map view.source_of es.now)) items.now) }
{
    for e in es {
        if reads_state(alloc, table, e, items)? {
            return Ok(true);
        }
    }
    Ok(false)
}

#[cycle(reads)]
fn piece_reads(
    alloc: Global,
    table: &StateTable,
    parts: &[Piece],
    items: &[bool],
) -> Result<bool, OutOfMemory>
    ensures { IfOk result (λ x. x
        ≡ spec.piece_reads (known table.now) (pieces (map view.piece_of parts.now)) items.now) }
{
    for part in parts {
        if one_piece_reads(alloc, table, part, items)? {
            return Ok(true);
        }
    }
    Ok(false)
}

#[cycle(reads)]
#[tactic(auto, using(bicep_resolved::proofs::ViewLemmas::structs))]
fn one_piece_reads(
    alloc: Global,
    table: &StateTable,
    part: &Piece,
    items: &[bool],
) -> Result<bool, OutOfMemory>
    ensures { IfOk result (λ x. x ≡ spec.reads_state (known table.now) (view.piece_of part.now).0 items.now) }
{
    reads_state(alloc, table, &part.value, items)
}

#[cycle(reads)]
fn property_reads(
    alloc: Global,
    table: &StateTable,
    members: &[Property],
    items: &[bool],
) -> Result<bool, OutOfMemory>
    ensures { IfOk result (λ x. x
        ≡ spec.property_reads (known table.now) (properties (map view.property_of members.now)) items.now) }
{
    for member in members {
        if one_property_reads(alloc, table, member, items)? {
            return Ok(true);
        }
    }
    Ok(false)
}

#[cycle(reads)]
#[tactic(auto, using(bicep_resolved::proofs::ViewLemmas::structs))]
fn one_property_reads(
    alloc: Global,
    table: &StateTable,
    member: &Property,
    items: &[bool],
) -> Result<bool, OutOfMemory>
    ensures { IfOk result (λ x. x ≡ spec.value_reads (known table.now) (view.property_of member.now).2 items.now) }
{
    value_reads(alloc, table, &member.value, items)
}

/// Whether a value inside loops reads state.
#[cycle(reads)]
#[tactic(auto, using(bicep_resolved::proofs::ViewLemmas::enums))]
pub(crate) fn value_reads(
    alloc: Global,
    table: &StateTable,
    value: &SourceValue,
    items: &[bool],
) -> Result<bool, OutOfMemory>
    ensures { IfOk result (λ x. x ≡ spec.value_reads (known table.now) (view.value_of value.now) items.now) }
{
    match value {
        SourceValue::Plain(e) => reads_state(alloc, table, e, items),
        SourceValue::Each(each, body) => {
            let over = loop_reads(alloc, table, each, items)?;
            let inner = with_loop(alloc, over, items)?;
            either(Ok(over), reads_state(alloc, table, body, inner.as_slice()))
        }
    }
}

/// Whether what a loop runs over reads state.
#[cycle(reads)]
#[tactic(auto, using(bicep_resolved::proofs::ViewLemmas::structs))]
pub(crate) fn loop_reads(
    alloc: Global,
    table: &StateTable,
    each: &SourceLoop,
    items: &[bool],
) -> Result<bool, OutOfMemory>
    ensures { IfOk result (λ x. x ≡ spec.loop_reads (known table.now) (view.loop_of each.now) items.now) }
{
    reads_state(alloc, table, &each.over, items)
}
