//! The arguments of a module, as its file has them.
ghost use Rattle.std.specs.Prelude.{◌≡◌, Some, codes, map, option_map, bytes_eq};
ghost use Rattle.bicep_resolved.specs.Source.{field_named, plain};
ghost use Rattle.bicep_resolved.specs.View.{source_of, value_of, property_of, properties};
ghost use Rattle.emitted_modules.specs.Arguments.{object_members, arguments_in};

use arm_value::Text;
use bicep_resolved::{Property, Source, SourceValue};
use bicep_tree::is_word;

#[tactic(auto, using(bicep_resolved::proofs::ViewLemmas::structs))]
fn is_params(field: &Property) -> bool
    ensures { result ≡ bytes_eq (property_of field.now).1 (codes "params") }
{
    is_word(field.name.as_str(), "params")
}

/// The name of a property.
#[tactic(auto, using(bicep_resolved::proofs::ViewLemmas::structs))]
pub(crate) fn name_in(field: &Property) -> &Text
    ensures { result.now ≡ (property_of field.now).1 }
{
    &field.name
}

/// The value of a property.
#[tactic(auto, using(bicep_resolved::proofs::ViewLemmas::structs))]
pub(crate) fn value_in(field: &Property) -> &SourceValue
    ensures { value_of result.now ≡ (property_of field.now).2 }
{
    &field.value
}

// The value of the field `params`.
fn params_field(fields: &[Property]) -> Option<&SourceValue>
    ensures { option_map (λ v. value_of v.now) result
        ≡ field_named (codes "params") (properties (map property_of fields.now)) }
{
    for field in fields {
        if is_params(field) {
            return Some(value_in(field));
        }
    }
    None
}

// The members of an object.
#[tactic(auto, using(bicep_resolved::proofs::ViewLemmas::enums))]
fn members_in(e: &Source) -> &[Property]
    ensures { properties (map property_of result.now) ≡ object_members (Some (plain (source_of e.now))) }
{
    match e {
        Source::Object(_, members) => members.as_slice(),
        Source::Literal(_, _)
        | Source::Array(_, _)
        | Source::Prefix(_, _, _)
        | Source::Name(_, _)
        | Source::Interpolated(_, _, _)
        | Source::Call(_, _, _)
        | Source::Instance(_)
        | Source::Field(_, _, _)
        | Source::Output(_, _, _)
        | Source::Member(_, _, _)
        | Source::Index(_, _, _)
        | Source::Binary(_, _, _)
        | Source::Conditional(_, _, _) => &[],
    }
}

// The members of a value that is a plain object.
#[tactic(auto, using(bicep_resolved::proofs::ViewLemmas::enums))]
fn members_of(value: &SourceValue) -> &[Property]
    ensures { properties (map property_of result.now) ≡ object_members (Some (value_of value.now)) }
{
    match value {
        SourceValue::Plain(e) => members_in(e),
        SourceValue::Each(_, _) => &[],
    }
}

/// The arguments of a module with these fields: the members of its field `params`.
pub(crate) fn arguments_of(fields: &[Property]) -> &[Property]
    ensures { properties (map property_of result.now) ≡ arguments_in (properties (map property_of fields.now)) }
{
    match params_field(fields) {
        Some(value) => members_of(value),
        None => &[],
    }
}
