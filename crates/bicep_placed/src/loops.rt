// For-expressions in the names of resources and modules.
ghost use Rattle.std.specs.Prelude.{◌≡◌, map};
ghost use Rattle.bicep_resolved.specs.View as view;
ghost use Rattle.bicep_resolved.specs.View.{sources, properties};
ghost use Rattle.bicep_placed.specs.Loops as spec;

use bicep_resolved::{Property, Source, SourceValue};

#[cycle(looping)]
#[tactic(auto, using(bicep_resolved::proofs::ViewLemmas::enums))]
fn loop_in(e: &Source) -> Option<usize>
    ensures { result ≡ spec.loop_in (view.source_of e.now) }
{
    match e {
        Source::Object(_, members) => loop_in_members(members.as_slice()),
        Source::Array(_, items) => loop_in_all(items.as_slice()),
        Source::Name(..)
        | Source::Literal(..)
        | Source::Interpolated(..)
        | Source::Call(..)
        | Source::Instance(..)
        | Source::Field(..)
        | Source::Output(..)
        | Source::Member(..)
        | Source::Index(..)
        | Source::Prefix(..)
        | Source::Binary(..)
        | Source::Conditional(..) => None,
    }
}

#[cycle(looping)]
fn loop_in_all(es: &[Source]) -> Option<usize>
    ensures { result ≡ spec.loop_in_all (sources (map view.source_of es.now)) }
{
    for e in es {
        match loop_in(e) {
            Some(at) => return Some(at),
            None => {}
        }
    }
    None
}

#[cycle(looping)]
fn loop_in_members(members: &[Property]) -> Option<usize>
    ensures { result ≡ spec.loop_in_members (properties (map view.property_of members.now)) }
{
    for member in members {
        match loop_in_member(member) {
            Some(at) => return Some(at),
            None => {}
        }
    }
    None
}

#[cycle(looping)]
#[tactic(auto, using(bicep_resolved::proofs::ViewLemmas::structs))]
fn loop_in_member(member: &Property) -> Option<usize>
    ensures { result ≡ spec.loop_in_value (view.property_of member.now).2 }
{
    loop_in_value(&member.value)
}

/// The offset of the `[` of the first for-expression in the value of a field, in bytes.
#[cycle(looping)]
#[tactic(auto, using(bicep_resolved::proofs::ViewLemmas::enums, bicep_resolved::proofs::ViewLemmas::structs))]
pub(crate) fn loop_in_value(value: &SourceValue) -> Option<usize>
    ensures { result ≡ spec.loop_in_value (view.value_of value.now) }
{
    match value {
        SourceValue::Plain(e) => loop_in(e),
        SourceValue::Each(each, _) => Some(each.at),
    }
}
