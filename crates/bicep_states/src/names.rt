// Whether names of resources and modules, and values of variables read state.
ghost use Rattle.std.specs.Prelude.{◌≡◌, [], codes, bytes_eq, map, option_map, IfOk};
ghost use Rattle.bicep_resolved.specs.View as view;
ghost use Rattle.bicep_resolved.specs.View.{properties};
ghost use Rattle.bicep_names.specs.Resolve.{reach_in};
ghost use Rattle.bicep_declared.specs.View.{body_tree, declared_tree};
ghost use Rattle.bicep_mentions.specs.Names as spec;
ghost use Rattle.bicep_mentions.specs.States as states;
ghost use Rattle.bicep_states.specs.View.{known};
ghost use Rattle.bicep_resolved.specs.Source.{field_named};

use crate::reads::{either, loop_reads, one_of_three, reads_state, value_reads};
use crate::table::StateTable;
use arm_value::OutOfMemory;
use bicep_declared::{Declared, DeclaredBody};
use bicep_names::Kind;
use bicep_resolved::{Property, Source, SourceLoop, SourceValue};
use bicep_tree::is_word;
use std::alloc::Global;

#[tactic(auto, using(bicep_resolved::proofs::ViewLemmas::structs))]
fn is_name(field: &Property) -> bool
    ensures { result ≡ bytes_eq (view.property_of field.now).1 (codes "name") }
{
    is_word(field.name.as_str(), "name")
}

#[tactic(auto, using(bicep_resolved::proofs::ViewLemmas::structs))]
fn is_parent(field: &Property) -> bool
    ensures { result ≡ bytes_eq (view.property_of field.now).1 (codes "parent") }
{
    is_word(field.name.as_str(), "parent")
}

#[tactic(auto, using(bicep_resolved::proofs::ViewLemmas::structs))]
fn field_reads(
    alloc: Global,
    table: &StateTable,
    field: &Property,
    items: &[bool],
) -> Result<bool, OutOfMemory>
    ensures { IfOk result (λ x. x ≡ states.value_reads (known table.now) (view.property_of field.now).2 items.now) }
{
    value_reads(alloc, table, &field.value, items)
}

// Whether the value of the field `name` reads state.
fn name_field_reads(
    alloc: Global,
    table: &StateTable,
    fields: &[Property],
    items: &[bool],
) -> Result<bool, OutOfMemory>
    ensures { IfOk result (λ x. x ≡ spec.field_value_reads (known table.now)
        (field_named (codes "name") (properties (map view.property_of fields.now))) items.now) }
{
    for field in fields {
        if is_name(field) {
            return field_reads(alloc, table, field, items);
        }
    }
    Ok(false)
}

// Whether the name of the resource that an expression is reads state, or that of one of its parents.
#[tactic(auto, using(bicep_resolved::proofs::ViewLemmas::enums))]
fn parent_whole(table: &StateTable, e: &Source) -> bool
    ensures { result ≡ spec.reach_whole (known table.now) (reach_in (view.source_of e.now)) }
{
    match e {
        Source::Instance(reach) => table.whole_reads(reach.target().number()),
        Source::Name(..)
        | Source::Literal(..)
        | Source::Interpolated(..)
        | Source::Object(..)
        | Source::Array(..)
        | Source::Call(..)
        | Source::Field(..)
        | Source::Output(..)
        | Source::Member(..)
        | Source::Index(..)
        | Source::Prefix(..)
        | Source::Binary(..)
        | Source::Conditional(..) => false,
    }
}

#[tactic(auto, using(bicep_resolved::proofs::ViewLemmas::enums))]
fn parent_value_reads(
    alloc: Global,
    table: &StateTable,
    value: &SourceValue,
    items: &[bool],
) -> Result<bool, OutOfMemory>
    ensures { IfOk result (λ x. x ≡ spec.parent_value (known table.now) (view.value_of value.now) items.now) }
{
    match value {
        SourceValue::Plain(e) => either(
            Ok(parent_whole(table, e)),
            reads_state(alloc, table, e, items),
        ),
        SourceValue::Each(_, _) => Ok(false),
    }
}

#[tactic(auto, using(bicep_resolved::proofs::ViewLemmas::structs))]
fn parent_reads(
    alloc: Global,
    table: &StateTable,
    field: &Property,
    items: &[bool],
) -> Result<bool, OutOfMemory>
    ensures { IfOk result (λ x. x ≡ spec.parent_value (known table.now) (view.property_of field.now).2 items.now) }
{
    parent_value_reads(alloc, table, &field.value, items)
}

// Whether the names of the resource of the field `parent` read state.
fn parent_field_reads(
    alloc: Global,
    table: &StateTable,
    fields: &[Property],
    items: &[bool],
) -> Result<bool, OutOfMemory>
    ensures { IfOk result (λ x. x ≡ spec.parent_value_reads (known table.now)
        (field_named (codes "parent") (properties (map view.property_of fields.now))) items.now) }
{
    for field in fields {
        if is_parent(field) {
            return parent_reads(alloc, table, field, items);
        }
    }
    Ok(false)
}

// For the loop of a body, where it has one, whether its items read state.
fn body_items(
    alloc: Global,
    table: &StateTable,
    each: Option<&SourceLoop>,
) -> Result<Vec<bool>, OutOfMemory>
    ensures { IfOk result (λ v. v.items
        ≡ spec.body_items (known table.now) (option_map (λ l. view.loop_of l.now) each.entry)) }
{
    let mut items = Vec::new(alloc);
    match each {
        Some(each) => {
            items.push(loop_reads(alloc, table, each, &[])?)?;
            Ok(items)
        }
        None => Ok(items),
    }
}

fn body_name_reads(
    alloc: Global,
    table: &StateTable,
    body: &DeclaredBody,
) -> Result<bool, OutOfMemory>
    ensures { IfOk result (λ x. x ≡ spec.body_name_reads (known table.now) (body_tree body.now)) }
{
    let items = body_items(alloc, table, body.each.as_ref())?;
    name_field_reads(alloc, table, body.fields.as_slice(), items.as_slice())
}

/// Whether the value of a variable reads state, or the name of a resource or a module.
pub(crate) fn own_reads(
    alloc: Global,
    table: &StateTable,
    declaration: &Declared,
) -> Result<bool, OutOfMemory>
    ensures { IfOk result (λ x. x ≡ spec.own_reads (known table.now) (declared_tree declaration.now)) }
{
    match declaration {
        Declared::Parameter(_, _) | Declared::ParameterWith(_, _, _) => Ok(false),
        Declared::Variable(_, value) => value_reads(alloc, table, value, &[]),
        Declared::Resource(_, _, _, body) | Declared::Module(_, body) => {
            body_name_reads(alloc, table, body)
        }
    }
}

fn around_reads(table: &StateTable, kind: Kind) -> bool
    ensures { result ≡ spec.around_reads (known table.now) kind }
{
    match kind {
        Kind::Resource(Some(number)) | Kind::ResourceLoop(Some(number)) => table.whole_reads(
            number,
        ),
        Kind::Resource(None)
        | Kind::ResourceLoop(None)
        | Kind::Parameter
        | Kind::Variable
        | Kind::Module(_)
        | Kind::ModuleLoop(_) => false,
    }
}

fn body_parent_reads(
    alloc: Global,
    table: &StateTable,
    body: &DeclaredBody,
) -> Result<bool, OutOfMemory>
    ensures { IfOk result (λ x. x ≡ spec.body_parent_reads (known table.now) (body_tree body.now)) }
{
    let items = body_items(alloc, table, body.each.as_ref())?;
    parent_field_reads(alloc, table, body.fields.as_slice(), items.as_slice())
}

// Whether the names of the resource of the field `parent` of a declaration read state.
fn declared_parent_reads(
    alloc: Global,
    table: &StateTable,
    declaration: &Declared,
) -> Result<bool, OutOfMemory>
    ensures { IfOk result (λ x. x ≡ spec.parent_reads (known table.now) (declared_tree declaration.now)) }
{
    match declaration {
        Declared::Resource(_, _, _, body) => body_parent_reads(alloc, table, body),
        Declared::Parameter(_, _)
        | Declared::ParameterWith(_, _, _)
        | Declared::Variable(_, _)
        | Declared::Module(_, _) => Ok(false),
    }
}

/// Whether the name of a resource reads state, or that of one of its parents.
pub(crate) fn whole_reads(
    alloc: Global,
    table: &StateTable,
    kind: Kind,
    declaration: &Declared,
) -> Result<bool, OutOfMemory>
    ensures { IfOk result (λ x. x ≡ spec.whole_reads (known table.now) kind (declared_tree declaration.now)) }
{
    one_of_three(
        own_reads(alloc, table, declaration),
        Ok(around_reads(table, kind)),
        declared_parent_reads(alloc, table, declaration),
    )
}
