// Fields and outputs: what a name after a `.` or a `::` is.
ghost use Rattle.std.specs.Prelude.{◌≡◌, None, IfOk};
ghost use Rattle.bicep_resolved.specs.Place.{reach_offset};
ghost use Rattle.bicep_resolved.specs.Target.{number_of, target_of};
ghost use Rattle.bicep_resolved.specs.View.{source_of, reach_of};
ghost use Rattle.bicep_found.specs.Found.{Gives, found};
ghost use Rattle.bicep_resolved.specs.Source as s;
ghost use Rattle.bicep_names.specs.Parts.{IsReach, IsOutputs};
ghost use Rattle.bicep_names.specs.Resolve as spec;
ghost use Rattle.bicep_names.specs.Scope.{scope};

use crate::outputs::{Outputs, output_named};
use crate::symbols::Symbols;
use arm_value::{OutOfMemory, Text};
use bicep_found::Stop;
use bicep_found::join::{boxed_with, let_go};
use bicep_resolved::{Field, Reach, Selector, Source, Target};
use bicep_tree::{Access, Name, is_word};
use std::alloc::Global;

// The field of that name of a resource.
#[tactic(auto, unfolding(crate::specs::Resolve::resource_field))]
fn resource_field(name: Text) -> Field
    ensures { result ≡ spec.resource_field name }
{
    if is_word(name.as_str(), "id") {
        return Field::Id;
    }
    if is_word(name.as_str(), "name") {
        return Field::Name;
    }
    if is_word(name.as_str(), "type") {
        return Field::Type;
    }
    if is_word(name.as_str(), "apiVersion") {
        return Field::ApiVersion;
    }
    if is_word(name.as_str(), "properties") {
        return Field::Properties;
    }
    Field::Other(name)
}

// The field of that name of a module.
#[tactic(auto, unfolding(crate::specs::Resolve::module_field))]
fn module_field(name: Text) -> Field
    ensures { result ≡ spec.module_field name }
{
    if is_word(name.as_str(), "name") {
        return Field::Name;
    }
    if is_word(name.as_str(), "outputs") {
        return Field::Outputs;
    }
    Field::Other(name)
}

fn field_of(target: Target, name: Text) -> Field
    ensures { result ≡ spec.field_of target name }
{
    match target {
        Target::Resource(_) | Target::ResourceLoop(_) => resource_field(name),
        Target::Module(_, _) | Target::ModuleLoop(_, _) => module_field(name),
    }
}

fn is_outputs(field: &Field) -> bool
    ensures { result ≡ spec.is_outputs field.now }
{
    match field {
        Field::Outputs => true,
        Field::Id
        | Field::Name
        | Field::Type
        | Field::ApiVersion
        | Field::Properties
        | Field::Other(_) => false,
    }
}

// The resource or module that an expression is, or else the expression.
#[tactic(auto, using(bicep_resolved::proofs::ViewLemmas::enums))]
fn into_reach(source: Source) -> Result<Reach, Source>
    ensures { IsReach source result }
{
    match source {
        Source::Instance(reach) => Ok(reach),
        other @ (Source::Name(..)
        | Source::Literal(..)
        | Source::Interpolated(..)
        | Source::Object(..)
        | Source::Array(..)
        | Source::Call(..)
        | Source::Field(..)
        | Source::Output(..)
        | Source::Member(..)
        | Source::Index(..)
        | Source::Prefix(..)
        | Source::Binary(..)
        | Source::Conditional(..)) => Err(other),
    }
}

// The module whose outputs a field is, or else the field.
#[tactic(auto, using(bicep_resolved::proofs::ViewLemmas::enums))]
fn outputs_or_field(reach: Reach, at: usize, field: Field) -> Result<Reach, Source>
    ensures { IsOutputs (Source.Field reach at field) result }
{
    if is_outputs(&field) {
        let_go(field);
        Ok(reach)
    } else {
        Err(Source::Field(reach, at, field))
    }
}

// The module whose outputs an expression is, or else the expression.
#[tactic(auto, using(bicep_resolved::proofs::ViewLemmas::enums))]
fn into_outputs(source: Source) -> Result<Reach, Source>
    ensures { IsOutputs source result }
{
    match source {
        Source::Field(reach, at, field) => outputs_or_field(reach, at, field),
        other @ (Source::Name(..)
        | Source::Literal(..)
        | Source::Interpolated(..)
        | Source::Object(..)
        | Source::Array(..)
        | Source::Call(..)
        | Source::Instance(..)
        | Source::Output(..)
        | Source::Member(..)
        | Source::Index(..)
        | Source::Prefix(..)
        | Source::Binary(..)
        | Source::Conditional(..)) => Err(other),
    }
}

fn name_copy(alloc: Global, name: &Name) -> Result<Name, OutOfMemory>
    ensures { IfOk result (λ n. n ≡ name.now) }
{
    Ok(Name {
        at: name.at,
        text: name.text.copy(alloc)?,
    })
}

// A member of a value by its name.
#[tactic(auto, using(bicep_resolved::proofs::ViewLemmas::enums))]
fn member(alloc: Global, whole: Source, selector: Selector, name: &Name) -> Result<Source, Stop>
    ensures { Gives source_of result (found (s.member (source_of whole) selector name.now)) }
{
    let name = match name_copy(alloc, name) {
        Ok(name) => name,
        Err(_) => {
            let_go(whole);
            return Err(Stop::OutOfMemory);
        }
    };
    match boxed_with(alloc, whole, name) {
        Ok((whole, name)) => Ok(Source::Member(whole, selector, name)),
        Err(_) => Err(Stop::OutOfMemory),
    }
}

// A field of a resource or a module.
#[tactic(auto, using(bicep_resolved::proofs::ViewLemmas::enums))]
fn field(alloc: Global, reach: Reach, name: &Name) -> Result<Source, Stop>
    ensures { Gives source_of result (found (s.field (reach_of reach) name.now.at
        (spec.field_of (target_of (reach_of reach)) name.now.text))) }
{
    match name.text.copy(alloc) {
        Ok(text) => {
            let target = reach.target();
            Ok(Source::Field(reach, name.at, field_of(target, text)))
        }
        Err(_) => {
            let_go(reach);
            Err(Stop::OutOfMemory)
        }
    }
}

// The number of the output of that name of a module.
fn output_of(outputs: &[Outputs], target: Target, name: &Text) -> Option<usize>
    ensures { result ≡ spec.output_of outputs.now target name.now }
{
    match target {
        Target::Module(_, file) | Target::ModuleLoop(_, file) => output_named(outputs, file, name),
        Target::Resource(_) | Target::ResourceLoop(_) => None,
    }
}

// An output of a module.
#[tactic(auto, using(bicep_resolved::proofs::ViewLemmas::enums))]
fn output(outputs: &[Outputs], reach: Reach, name: &Name) -> Result<Source, Stop>
    ensures { Gives source_of result (spec.output_at (reach_of reach) name.now.at
        (spec.output_of outputs.now (target_of (reach_of reach)) name.now.text)) }
{
    match output_of(outputs, reach.target(), &name.text) {
        Some(number) => Ok(Source::Output(reach, name.at, number)),
        None => {
            let_go(reach);
            Err(Stop::Unknown(name.at))
        }
    }
}

// A member of what is neither a resource nor a module.
fn output_or_member(
    alloc: Global,
    outputs: &[Outputs],
    whole: Source,
    name: &Name,
) -> Result<Source, Stop>
    ensures { Gives source_of result (spec.member_by outputs.now None
        (spec.outputs_in (source_of whole)) (source_of whole) name.now) }
{
    match into_outputs(whole) {
        Ok(reach) => output(outputs, reach, name),
        Err(whole) => member(alloc, whole, Selector::Plain, name),
    }
}

// `x.n`
#[tactic(auto, unfolding(crate::specs::Resolve::member_of))]
fn member_of(alloc: Global, outputs: &[Outputs], whole: Source, name: &Name) -> Result<Source, Stop>
    ensures { Gives source_of result (spec.member_of outputs.now (source_of whole) name.now) }
{
    match into_reach(whole) {
        Ok(reach) => field(alloc, reach, name),
        Err(whole) => output_or_member(alloc, outputs, whole, name),
    }
}

// The resource that is nested in what is reached.
#[tactic(auto, using(bicep_resolved::proofs::ViewLemmas::enums))]
fn nested_at(at: usize, name_at: usize, target: Option<Target>) -> Result<Source, Stop>
    ensures { Gives source_of result (spec.nested_at at name_at target) }
{
    match target {
        Some(target) => Ok(Source::Instance(Reach::Symbol(at, target))),
        None => Err(Stop::Unknown(name_at)),
    }
}

// `x::n`
#[tactic(auto, unfolding(crate::specs::Resolve::nested_of))]
fn nested_of(symbols: &Symbols, whole: Source, name: &Name) -> Result<Source, Stop>
    ensures { Gives source_of result (spec.nested_of symbols.now (source_of whole) name.now) }
{
    match into_reach(whole) {
        Ok(reach) => {
            let nested = symbols.nested(reach.target().number(), &name.text);
            let at = reach.at();
            let_go(reach);
            nested_at(at, name.at, nested)
        }
        Err(whole) => {
            let_go(whole);
            Err(Stop::Unknown(name.at))
        }
    }
}

/// A part of a value by its name.
pub(crate) fn accessed(
    alloc: Global,
    symbols: &Symbols,
    outputs: &[Outputs],
    whole: Source,
    access: Access,
    name: &Name,
) -> Result<Source, Stop>
    ensures { Gives source_of result
        (spec.accessed (scope symbols.now outputs.now) (source_of whole) access name.now) }
{
    match access {
        Access::Member => member_of(alloc, outputs, whole, name),
        Access::SafeMember => member(alloc, whole, Selector::Safe, name),
        Access::Nested => nested_of(symbols, whole, name),
    }
}
