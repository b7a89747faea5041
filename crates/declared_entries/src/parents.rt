//! Fields of resources, and what a resource is a child of.
ghost use Rattle.std.specs.Prelude.{◌≡◌, Some, codes, map, option_map, option_and_then, bytes_eq};
ghost use Rattle.bicep_symbols.specs.Entries.{symbol_of};
ghost use Rattle.bicep_resolved.specs.Source.{plain, field_named};
ghost use Rattle.bicep_resolved.specs.View.{source_of, value_of, property_of, properties};
ghost use Rattle.bicep_declared.specs.View.{declared_tree};
ghost use Rattle.bicep_meaning.specs.Files.{SourceFile, fields_parent, below_value, parent, around_kind};
ghost use Rattle.declared_types.specs.Types.{HasSymbols};
ghost use Rattle.declared_entries.specs.Parents.{parent_of};

use bicep_declared::Declared;
use bicep_names::Kind;
use bicep_resolved::{Property, Reach, Source, SourceValue};
use bicep_symbols::Entry;
use bicep_tree::is_word;

/// What a resource is a child of.
#[derive(Clone, Copy)]
pub(crate) enum Up<'a> {
    /// Of nothing.
    Nothing,
    /// Of the resource around it, by its number.
    Inside(usize),
    /// Of the one that its field `parent` names.
    Below(&'a Reach),
}

#[tactic(auto, using(bicep_resolved::proofs::ViewLemmas::structs))]
fn is_name(field: &Property) -> bool
    ensures { result ≡ bytes_eq (property_of field.now).1 (codes "name") }
{
    is_word(field.name.as_str(), "name")
}

#[tactic(auto, using(bicep_resolved::proofs::ViewLemmas::structs))]
fn is_parent(field: &Property) -> bool
    ensures { result ≡ bytes_eq (property_of field.now).1 (codes "parent") }
{
    is_word(field.name.as_str(), "parent")
}

#[tactic(auto, using(bicep_resolved::proofs::ViewLemmas::structs))]
fn value_in(field: &Property) -> &SourceValue
    ensures { value_of result.now ≡ (property_of field.now).2 }
{
    &field.value
}

/// The value of the field `name`.
pub(crate) fn name_field(fields: &[Property]) -> Option<&SourceValue>
    ensures { option_map (λ v. value_of v.now) result
        ≡ field_named (codes "name") (properties (map property_of fields.now)) }
{
    for field in fields {
        if is_name(field) {
            return Some(value_in(field));
        }
    }
    None
}

// The value of the field `parent`.
fn parent_field(fields: &[Property]) -> Option<&SourceValue>
    ensures { option_map (λ v. value_of v.now) result
        ≡ field_named (codes "parent") (properties (map property_of fields.now)) }
{
    for field in fields {
        if is_parent(field) {
            return Some(value_in(field));
        }
    }
    None
}

#[tactic(auto, using(bicep_resolved::proofs::ViewLemmas::enums))]
fn below_source(source: &Source) -> Up<'_>
    ensures { parent_of result ≡ below_value (Some (plain (source_of source.now))) }
{
    match source {
        Source::Instance(reach) => Up::Below(reach),
        Source::Name(..)
        | Source::Literal(..)
        | Source::Interpolated(..)
        | Source::Object(..)
        | Source::Array(..)
        | Source::Call(..)
        | Source::Field(..)
        | Source::Output(..)
        | Source::Member(..)
        | Source::Index(..)
        | Source::Prefix(..)
        | Source::Binary(..)
        | Source::Conditional(..) => Up::Nothing,
    }
}

#[tactic(auto, using(bicep_resolved::proofs::ViewLemmas::enums))]
fn below_some(value: &SourceValue) -> Up<'_>
    ensures { parent_of result ≡ below_value (Some (value_of value.now)) }
{
    match value {
        SourceValue::Plain(source) => below_source(source),
        SourceValue::Each(_, _) => Up::Nothing,
    }
}

fn below_value<'a>(value: Option<&'a SourceValue>) -> Up<'a>
    ensures { parent_of result ≡ below_value (option_map (λ v. value_of v.now) value.entry) }
{
    match value {
        Some(value) => below_some(value),
        None => Up::Nothing,
    }
}

// What the field `parent` of a resource names.
fn fields_parent<'a>(declaration: Option<&'a Declared>) -> Up<'a>
    ensures { parent_of result ≡ fields_parent (option_map (λ d. declared_tree d.now) declaration.entry) }
{
    match declaration {
        Some(Declared::Resource(_, _, _, body)) => {
            below_value(parent_field(body.fields.as_slice()))
        }
        Some(
            Declared::Parameter(_, _)
            | Declared::ParameterWith(_, _, _)
            | Declared::Variable(_, _)
            | Declared::Module(_, _),
        )
        | None => Up::Nothing,
    }
}

fn around_kind(kind: Kind) -> Option<usize>
    ensures { result ≡ around_kind kind }
{
    match kind {
        Kind::Resource(inside) | Kind::ResourceLoop(inside) => inside,
        Kind::Parameter | Kind::Variable | Kind::Module(_) | Kind::ModuleLoop(_) => None,
    }
}

// The resource around a symbol.
fn around(entry: Option<&Entry>) -> Option<usize>
    ensures { result ≡ option_and_then around_kind (option_map (λ e. e.now.kind) entry.entry) }
{
    match entry {
        Some(entry) => around_kind(entry.kind),
        None => None,
    }
}

/// What the resource of a number is a child of.
pub(crate) fn parent_of<'a>(
    entries: &[Entry],
    declarations: &'a [Declared],
    number: usize,
) -> Up<'a>
    ensures { (f : SourceFile) → HasSymbols f (map symbol_of entries.now) (map declared_tree declarations.now)
        → parent_of result ≡ parent f number }
{
    match around(entries.get(number)) {
        Some(around) => Up::Inside(around),
        None => fields_parent(declarations.get(number)),
    }
}
