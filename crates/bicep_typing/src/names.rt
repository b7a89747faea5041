// The types of what names, fields and outputs stand for.
ghost use Rattle.std.specs.Prelude.{◌≡◌, map, slice_get};
ghost use Rattle.bicep_typing.specs.Names as spec;

use crate::typed::Typed;
use bicep_resolved::{Field, Meaning, Target};
use bicep_signatures::ValueType;

// The type of that number; `Any` where there is none.
fn known(types: &[ValueType], number: usize) -> ValueType
    ensures { result ≡ spec.known (slice_get types.now number) }
{
    match types.get(number) {
        Some(found) => *found,
        None => ValueType::Any,
    }
}

// A parameter, a variable, or the item or the index of a loop.
#[tactic(auto, unfolding(crate::specs::Names::name_type))]
pub(crate) fn name_type(symbols: &[ValueType], meaning: Meaning) -> ValueType
    ensures { result ≡ spec.name_type symbols.now meaning }
{
    match meaning {
        Meaning::Parameter(number) | Meaning::Variable(number) => known(symbols, number),
        Meaning::Item(_) => ValueType::Any,
        Meaning::Index(_) => ValueType::Int,
    }
}

// A field of a resource, whose name is at a place.
fn resource_field(at: usize, field: &Field) -> Typed
    ensures { result ≡ spec.resource_field at field.now }
{
    match field {
        Field::Id | Field::Name | Field::Type | Field::ApiVersion => Ok(ValueType::Text),
        Field::Properties | Field::Other(_) => Ok(ValueType::Any),
        Field::Outputs => Err(at),
    }
}

// A field of a module, whose name is at a place.
fn module_field(at: usize, field: &Field) -> Typed
    ensures { result ≡ spec.module_field at field.now }
{
    match field {
        Field::Name => Ok(ValueType::Text),
        Field::Id
        | Field::Type
        | Field::ApiVersion
        | Field::Properties
        | Field::Outputs
        | Field::Other(_) => Err(at),
    }
}

// A field of a resource or a module, whose name is at a place.
#[tactic(auto, unfolding(crate::specs::Names::field_type))]
pub(crate) fn field_type(target: Target, at: usize, field: &Field) -> Typed
    ensures { result ≡ spec.field_type target at field.now }
{
    match target {
        Target::Resource(_) | Target::ResourceLoop(_) => resource_field(at, field),
        Target::Module(_, _) | Target::ModuleLoop(_, _) => module_field(at, field),
    }
}

// The type of an output of a file; `Any` where there is none.
#[tactic(auto, using(crate::proofs::CallLemmas::gets))]
fn output_in(outputs: &[Vec<ValueType>], file: usize, number: usize) -> ValueType
    ensures { result ≡ spec.output_in (slice_get (map spec.listed outputs.now) file) number }
{
    match outputs.get(file) {
        Some(types) => known(types.as_slice(), number),
        None => ValueType::Any,
    }
}

// An output of a module by its number, whose name is at a place.
#[tactic(auto, unfolding(crate::specs::Names::output_type))]
pub(crate) fn output_type(
    outputs: &[Vec<ValueType>],
    target: Target,
    at: usize,
    number: usize,
) -> Typed
    ensures { result ≡ spec.output_type (map spec.listed outputs.now) target at number }
{
    match target {
        Target::Module(_, file) | Target::ModuleLoop(_, file) => {
            Ok(output_in(outputs, file, number))
        }
        Target::Resource(_) | Target::ResourceLoop(_) => Err(at),
    }
}
