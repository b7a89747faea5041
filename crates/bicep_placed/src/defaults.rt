// What the default of a parameter may not mention.
ghost use Rattle.std.specs.Prelude.{◌≡◌, map};
ghost use Rattle.bicep_resolved.specs.View as view;
ghost use Rattle.bicep_resolved.specs.View.{sources, pieces, properties};
ghost use Rattle.bicep_placed.specs.Defaults as spec;

use bicep_resolved::{Meaning, Piece, Property, Source, SourceLoop, SourceValue};

fn variable_at(at: usize, meaning: Meaning) -> Option<usize>
    ensures { result ≡ spec.variable_at at meaning }
{
    match meaning {
        Meaning::Variable(_) => Some(at),
        Meaning::Parameter(_) | Meaning::Item(_) | Meaning::Index(_) => None,
    }
}

/// The offset of the first variable, resource or module that an expression mentions.
#[cycle(mention)]
#[tactic(auto, using(bicep_resolved::proofs::ViewLemmas::enums))]
pub(crate) fn mention_in(e: &Source) -> Option<usize>
    ensures { result ≡ spec.mention_in (view.source_of e.now) }
{
    match e {
        Source::Name(at, meaning) => variable_at(*at, *meaning),
        Source::Literal(_, _) => None,
        Source::Interpolated(_, _, parts) => mention_in_pieces(parts.as_slice()),
        Source::Object(_, members) => mention_in_properties(members.as_slice()),
        Source::Array(_, items) => mention_in_all(items.as_slice()),
        Source::Call(_, _, arguments) => mention_in_all(arguments.as_slice()),
        Source::Instance(reach) => Some(reach.at()),
        Source::Field(reach, _, _) => Some(reach.at()),
        Source::Output(reach, _, _) => Some(reach.at()),
        Source::Member(whole, _, _) => mention_in(whole),
        Source::Index(whole, _, index) => match mention_in(whole) {
            Some(at) => Some(at),
            None => mention_in(index),
        },
        Source::Prefix(_, _, operand) => mention_in(operand),
        Source::Binary(_, first, second) => match mention_in(first) {
            Some(at) => Some(at),
            None => mention_in(second),
        },
        Source::Conditional(condition, yes, no) => match mention_in(condition) {
            Some(at) => Some(at),
            None => match mention_in(yes) {
                Some(at) => Some(at),
                None => mention_in(no),
            },
        },
    }
}

#[cycle(mention)]
fn mention_in_all(es: &[Source]) -> Option<usize>
    ensures { result ≡ spec.mention_in_all (sources (map view.source_of es.now)) }
{
    for e in es {
        match mention_in(e) {
            Some(at) => return Some(at),
            None => {}
        }
    }
    None
}

#[cycle(mention)]
fn mention_in_pieces(parts: &[Piece]) -> Option<usize>
    ensures { result ≡ spec.mention_in_pieces (pieces (map view.piece_of parts.now)) }
{
    for part in parts {
        match mention_in_piece(part) {
            Some(at) => return Some(at),
            None => {}
        }
    }
    None
}

#[cycle(mention)]
#[tactic(auto, using(bicep_resolved::proofs::ViewLemmas::structs))]
fn mention_in_piece(part: &Piece) -> Option<usize>
    ensures { result ≡ spec.mention_in (view.piece_of part.now).0 }
{
    mention_in(&part.value)
}

#[cycle(mention)]
fn mention_in_properties(members: &[Property]) -> Option<usize>
    ensures { result ≡ spec.mention_in_properties (properties (map view.property_of members.now)) }
{
    for member in members {
        match mention_in_property(member) {
            Some(at) => return Some(at),
            None => {}
        }
    }
    None
}

#[cycle(mention)]
#[tactic(auto, using(bicep_resolved::proofs::ViewLemmas::structs))]
fn mention_in_property(member: &Property) -> Option<usize>
    ensures { result ≡ spec.mention_in_value (view.property_of member.now).2 }
{
    mention_in_value(&member.value)
}

#[cycle(mention)]
#[tactic(auto, using(bicep_resolved::proofs::ViewLemmas::enums))]
fn mention_in_value(value: &SourceValue) -> Option<usize>
    ensures { result ≡ spec.mention_in_value (view.value_of value.now) }
{
    match value {
        SourceValue::Plain(e) => mention_in(e),
        SourceValue::Each(each, body) => match mention_in_loop(each) {
            Some(at) => Some(at),
            None => mention_in(body),
        },
    }
}

#[cycle(mention)]
#[tactic(auto, using(bicep_resolved::proofs::ViewLemmas::structs))]
fn mention_in_loop(each: &SourceLoop) -> Option<usize>
    ensures { result ≡ spec.mention_in_loop (view.loop_of each.now) }
{
    mention_in(&each.over)
}
