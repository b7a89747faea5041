// The fields of resources and modules.
ghost use Rattle.std.specs.Prelude.{◌≡◌, map, option_map};
ghost use Rattle.bicep_tree.specs.View.{file_of};
ghost use Rattle.bicep_resolved.specs.View.{source_of, value_of, property_of, properties};
ghost use Rattle.bicep_typing.specs.Names.{types_in};
ghost use Rattle.bicep_type_faults.specs.Files as spec;
ghost use Rattle.bicep_type_faults.specs.Parameters as parameters;
ghost use Rattle.bicep_type_faults.specs.Places as places;

use crate::parameters::parameter_kinds;
use crate::places::{dependents_fit, parent_fits, value_fits, value_typed};
use arm_value::Text;
use bicep_resolved::{Property, Source, SourceValue};
use bicep_signatures::ValueType;
use bicep_tree::{Statement, is_word};
use bicep_typing::Fitting;

// A field of a resource.
#[tactic(auto, unfolding(crate::specs::Files::resource_field_fits))]
fn resource_field_fits(
    symbols: &[ValueType],
    outputs: &[Vec<ValueType>],
    name: &Text,
    value: &SourceValue,
) -> Fitting
    ensures { result ≡ spec.resource_field_fits (types_in symbols.now outputs.now) name.now (value_of value.now) }
{
    if is_word(name.as_str(), "parent") {
        parent_fits(symbols, outputs, value)
    } else if is_word(name.as_str(), "dependsOn") {
        dependents_fit(symbols, outputs, value)
    } else {
        value_typed(symbols, outputs, value)
    }
}

// A field of a resource, as it is written.
#[tactic(auto, using(bicep_resolved::proofs::ViewLemmas::structs))]
fn one_resource_field(
    symbols: &[ValueType],
    outputs: &[Vec<ValueType>],
    field: &Property,
) -> Fitting
    ensures { result ≡ spec.resource_field_fits (types_in symbols.now outputs.now)
        (property_of field.now).1 (property_of field.now).2 }
{
    resource_field_fits(symbols, outputs, &field.name, &field.value)
}

// The fields of a resource.
pub(crate) fn resource_fields_fit(
    symbols: &[ValueType],
    outputs: &[Vec<ValueType>],
    fields: &[Property],
) -> Fitting
    ensures { result ≡ spec.resource_fields_fit (types_in symbols.now outputs.now)
        (properties (map property_of fields.now)) }
{
    for field in fields {
        match one_resource_field(symbols, outputs, field) {
            Ok(()) => {}
            Err(fault) => return Err(fault),
        }
    }
    Ok(())
}

// An argument of a module, whose file is the one that is given.
#[tactic(auto, using(bicep_resolved::proofs::ViewLemmas::structs))]
fn one_argument(
    symbols: &[ValueType],
    outputs: &[Vec<ValueType>],
    file: Option<&[Statement]>,
    argument: &Property,
) -> Fitting
    ensures { result ≡ places.value_fits (types_in symbols.now outputs.now)
        (parameters.parameter_kinds (option_map (λ f. file_of f.now) file.entry) (property_of argument.now).1)
        (property_of argument.now).2 }
{
    let kinds = parameter_kinds(file, &argument.name);
    value_fits(symbols, outputs, kinds, &argument.value)
}

// The arguments of a module, whose file is the one that is given.
fn arguments_fit(
    symbols: &[ValueType],
    outputs: &[Vec<ValueType>],
    file: Option<&[Statement]>,
    arguments: &[Property],
) -> Fitting
    ensures { result ≡ spec.arguments_fit (types_in symbols.now outputs.now)
        (option_map (λ f. file_of f.now) file.entry) (properties (map property_of arguments.now)) }
{
    for argument in arguments {
        match one_argument(symbols, outputs, file, argument) {
            Ok(()) => {}
            Err(fault) => return Err(fault),
        }
    }
    Ok(())
}

#[tactic(auto, using(bicep_resolved::proofs::ViewLemmas::enums))]
fn braces_fit(
    symbols: &[ValueType],
    outputs: &[Vec<ValueType>],
    file: Option<&[Statement]>,
    e: &Source,
) -> Fitting
    ensures { result ≡ spec.braces_fit (types_in symbols.now outputs.now)
        (option_map (λ f. file_of f.now) file.entry) (source_of e.now) }
{
    match e {
        Source::Object(_, arguments) => arguments_fit(symbols, outputs, file, arguments),
        Source::Name(..)
        | Source::Literal(..)
        | Source::Interpolated(..)
        | Source::Array(..)
        | Source::Call(..)
        | Source::Instance(..)
        | Source::Field(..)
        | Source::Output(..)
        | Source::Member(..)
        | Source::Index(..)
        | Source::Prefix(..)
        | Source::Binary(..)
        | Source::Conditional(..) => Err(e.at()),
    }
}

// The value of `params`.
#[tactic(auto, using(bicep_resolved::proofs::ViewLemmas::enums))]
fn params_fit(
    symbols: &[ValueType],
    outputs: &[Vec<ValueType>],
    file: Option<&[Statement]>,
    value: &SourceValue,
) -> Fitting
    ensures { result ≡ spec.params_fit (types_in symbols.now outputs.now)
        (option_map (λ f. file_of f.now) file.entry) (value_of value.now) }
{
    match value {
        SourceValue::Plain(e) => braces_fit(symbols, outputs, file, e),
        SourceValue::Each(_, _) => Err(value.at()),
    }
}

// A field of a module.
#[tactic(auto, unfolding(crate::specs::Files::module_field_fits))]
fn module_field_fits(
    symbols: &[ValueType],
    outputs: &[Vec<ValueType>],
    file: Option<&[Statement]>,
    name: &Text,
    value: &SourceValue,
) -> Fitting
    ensures { result ≡ spec.module_field_fits (types_in symbols.now outputs.now)
        (option_map (λ f. file_of f.now) file.entry) name.now (value_of value.now) }
{
    if is_word(name.as_str(), "params") {
        params_fit(symbols, outputs, file, value)
    } else if is_word(name.as_str(), "dependsOn") {
        dependents_fit(symbols, outputs, value)
    } else {
        value_typed(symbols, outputs, value)
    }
}

// A field of a module, as it is written.
#[tactic(auto, using(bicep_resolved::proofs::ViewLemmas::structs))]
fn one_module_field(
    symbols: &[ValueType],
    outputs: &[Vec<ValueType>],
    file: Option<&[Statement]>,
    field: &Property,
) -> Fitting
    ensures { result ≡ spec.module_field_fits (types_in symbols.now outputs.now)
        (option_map (λ f. file_of f.now) file.entry) (property_of field.now).1 (property_of field.now).2 }
{
    module_field_fits(symbols, outputs, file, &field.name, &field.value)
}

// The fields of a module.
pub(crate) fn module_fields_fit(
    symbols: &[ValueType],
    outputs: &[Vec<ValueType>],
    file: Option<&[Statement]>,
    fields: &[Property],
) -> Fitting
    ensures { result ≡ spec.module_fields_fit (types_in symbols.now outputs.now)
        (option_map (λ f. file_of f.now) file.entry) (properties (map property_of fields.now)) }
{
    for field in fields {
        match one_module_field(symbols, outputs, file, field) {
            Ok(()) => {}
            Err(fault) => return Err(fault),
        }
    }
    Ok(())
}
