// Which types fit the places of declarations.
ghost use Rattle.std.specs.Prelude.{◌≡◌, map, option_map};
ghost use Rattle.bicep_resolved.specs.View.{source_of, value_of, reach_of, loop_of, sources};
ghost use Rattle.bicep_typing.specs.Names.{types_in};
ghost use Rattle.bicep_typing.specs.Typing as typing;
ghost use Rattle.bicep_type_faults.specs.Places as spec;

use bicep_resolved::{Reach, Source, SourceLoop, SourceValue};
use bicep_signatures::{Kinds, ValueType};
use bicep_tree::TypeName;
use bicep_typing::{Fitting, Typed, reach_fits, type_of, value_type, wanted};

// The kinds of values of a declared type.
pub(crate) fn kinds_of(name: TypeName) -> Kinds
    ensures { result ≡ spec.kinds_of name }
{
    match name {
        TypeName::String => Kinds::Text,
        TypeName::Int => Kinds::Int,
        TypeName::Bool => Kinds::Bool,
        TypeName::Object => Kinds::Object,
        TypeName::Array => Kinds::Array,
    }
}

// That there is a type.
pub(crate) fn typed(given: Typed) -> Fitting
    ensures { result ≡ spec.typed given }
{
    match given {
        Ok(_) => Ok(()),
        Err(fault) => Err(fault),
    }
}

// An expression where kinds of values are taken.
pub(crate) fn expression_fits(
    symbols: &[ValueType],
    outputs: &[Vec<ValueType>],
    kinds: Kinds,
    e: &Source,
) -> Fitting
    ensures { result ≡ spec.expression_fits (types_in symbols.now outputs.now) kinds (source_of e.now) }
{
    let given = type_of(symbols, outputs, e);
    typed(wanted(kinds, e.at(), given))
}

// A value where kinds of values are taken.
pub(crate) fn value_fits(
    symbols: &[ValueType],
    outputs: &[Vec<ValueType>],
    kinds: Kinds,
    value: &SourceValue,
) -> Fitting
    ensures { result ≡ spec.value_fits (types_in symbols.now outputs.now) kinds (value_of value.now) }
{
    let given = value_type(symbols, outputs, value);
    typed(wanted(kinds, value.at(), given))
}

// A value of any kind.
pub(crate) fn value_typed(
    symbols: &[ValueType],
    outputs: &[Vec<ValueType>],
    value: &SourceValue,
) -> Fitting
    ensures { result ≡ spec.typed (typing.value_type (types_in symbols.now outputs.now) (value_of value.now)) }
{
    typed(value_type(symbols, outputs, value))
}

// An expression of any kind.
fn expression_typed(symbols: &[ValueType], outputs: &[Vec<ValueType>], e: &Source) -> Fitting
    ensures { result ≡ spec.typed (typing.type_of (types_in symbols.now outputs.now) (source_of e.now)) }
{
    typed(type_of(symbols, outputs, e))
}

// What a loop runs over.
#[tactic(auto, using(bicep_resolved::proofs::ViewLemmas::structs))]
pub(crate) fn loop_fits(
    symbols: &[ValueType],
    outputs: &[Vec<ValueType>],
    each: &Option<SourceLoop>,
) -> Fitting
    ensures { result ≡ spec.loop_fits (types_in symbols.now outputs.now)
        (option_map loop_of each.now) }
{
    match each {
        Some(each) => expression_fits(symbols, outputs, Kinds::Array, &each.over),
        None => Ok(()),
    }
}

// A condition.
pub(crate) fn condition_fits(
    symbols: &[ValueType],
    outputs: &[Vec<ValueType>],
    condition: &Option<Source>,
) -> Fitting
    ensures { result ≡ spec.condition_fits (types_in symbols.now outputs.now)
        (option_map source_of condition.now) }
{
    match condition {
        Some(condition) => expression_fits(symbols, outputs, Kinds::Bool, condition),
        None => Ok(()),
    }
}

// A resource or a module to which another is linked.
#[tactic(auto, using(bicep_resolved::proofs::ViewLemmas::enums))]
fn link_fits(symbols: &[ValueType], outputs: &[Vec<ValueType>], reach: &Reach) -> Fitting
    ensures { result ≡ spec.link_fits (types_in symbols.now outputs.now) (reach_of reach.now) }
{
    match reach {
        Reach::Symbol(_, _) => Ok(()),
        Reach::Element(_, _, _) => reach_fits(symbols, outputs, reach),
    }
}

// An expression that may be a resource or a module.
#[tactic(auto, using(bicep_resolved::proofs::ViewLemmas::enums))]
fn linked_fits(symbols: &[ValueType], outputs: &[Vec<ValueType>], e: &Source) -> Fitting
    ensures { result ≡ spec.linked_fits (types_in symbols.now outputs.now) (source_of e.now) }
{
    match e {
        Source::Instance(reach) => link_fits(symbols, outputs, reach),
        Source::Name(..)
        | Source::Literal(..)
        | Source::Interpolated(..)
        | Source::Object(..)
        | Source::Array(..)
        | Source::Call(..)
        | Source::Field(..)
        | Source::Output(..)
        | Source::Member(..)
        | Source::Index(..)
        | Source::Prefix(..)
        | Source::Binary(..)
        | Source::Conditional(..) => expression_typed(symbols, outputs, e),
    }
}

fn all_linked_fit(symbols: &[ValueType], outputs: &[Vec<ValueType>], all: &[Source]) -> Fitting
    ensures { result ≡ spec.all_linked_fit (types_in symbols.now outputs.now) (sources (map source_of all.now)) }
{
    for e in all {
        match linked_fits(symbols, outputs, e) {
            Ok(()) => {}
            Err(fault) => return Err(fault),
        }
    }
    Ok(())
}

// The value of `parent`.
#[tactic(auto, using(bicep_resolved::proofs::ViewLemmas::enums))]
pub(crate) fn parent_fits(
    symbols: &[ValueType],
    outputs: &[Vec<ValueType>],
    value: &SourceValue,
) -> Fitting
    ensures { result ≡ spec.parent_fits (types_in symbols.now outputs.now) (value_of value.now) }
{
    match value {
        SourceValue::Plain(e) => linked_fits(symbols, outputs, e),
        SourceValue::Each(_, _) => value_typed(symbols, outputs, value),
    }
}

#[tactic(auto, using(bicep_resolved::proofs::ViewLemmas::enums))]
fn links_fit(symbols: &[ValueType], outputs: &[Vec<ValueType>], e: &Source) -> Fitting
    ensures { result ≡ spec.links_fit (types_in symbols.now outputs.now) (source_of e.now) }
{
    match e {
        Source::Array(_, all) => all_linked_fit(symbols, outputs, all),
        Source::Name(..)
        | Source::Literal(..)
        | Source::Interpolated(..)
        | Source::Object(..)
        | Source::Call(..)
        | Source::Instance(..)
        | Source::Field(..)
        | Source::Output(..)
        | Source::Member(..)
        | Source::Index(..)
        | Source::Prefix(..)
        | Source::Binary(..)
        | Source::Conditional(..) => expression_typed(symbols, outputs, e),
    }
}

// The value of `dependsOn`.
#[tactic(auto, using(bicep_resolved::proofs::ViewLemmas::enums))]
pub(crate) fn dependents_fit(
    symbols: &[ValueType],
    outputs: &[Vec<ValueType>],
    value: &SourceValue,
) -> Fitting
    ensures { result ≡ spec.dependents_fit (types_in symbols.now outputs.now) (value_of value.now) }
{
    match value {
        SourceValue::Plain(e) => links_fit(symbols, outputs, e),
        SourceValue::Each(_, _) => value_typed(symbols, outputs, value),
    }
}
