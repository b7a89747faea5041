// What is misplaced in a file by what its names stand for.
ghost use Rattle.std.specs.Prelude.{◌≡◌, map, IfOk};
ghost use Rattle.bicep_resolved.specs.View as view;
ghost use Rattle.bicep_resolved.specs.View.{properties};
ghost use Rattle.bicep_declared.specs.View.{declared_tree};
ghost use Rattle.bicep_placed.specs.Files as spec;
ghost use Rattle.foundation.specs.Options.{or_else};

use crate::defaults::mention_in;
use crate::kinds::{is_child, known, whole_kinds};
use crate::links::{bad_depends_on, parent_of};
use crate::loops::loop_in_value;
use arm_value::{OutOfMemory, Text};
use bicep_declared::Declared;
use bicep_resolved::Property;
use bicep_symbols::Entry;
use bicep_tree::{Quoted, is_word};
use std::alloc::Global;

// The field `dependsOn`.
#[tactic(auto, using(bicep_resolved::proofs::ViewLemmas::structs))]
fn bad_dependent(field: &Property) -> Option<usize>
    ensures { result ≡ spec.bad_dependent (view.property_of field.now).1 (view.property_of field.now).2 }
{
    if is_word(field.name.as_str(), "dependsOn") {
        return bad_depends_on(&field.value);
    }
    None
}

fn bad_dependents(fields: &[Property]) -> Option<usize>
    ensures { result ≡ spec.bad_dependents (properties (map view.property_of fields.now)) }
{
    for field in fields {
        match bad_dependent(field) {
            Some(at) => return Some(at),
            None => {}
        }
    }
    None
}

// The field `name`.
#[tactic(auto, using(bicep_resolved::proofs::ViewLemmas::structs))]
fn bad_name(field: &Property) -> Option<usize>
    ensures { result ≡ spec.bad_name (view.property_of field.now).1 (view.property_of field.now).2 }
{
    if is_word(field.name.as_str(), "name") {
        return loop_in_value(&field.value);
    }
    None
}

fn bad_names(fields: &[Property]) -> Option<usize>
    ensures { result ≡ spec.bad_names (properties (map view.property_of fields.now)) }
{
    for field in fields {
        match bad_name(field) {
            Some(at) => return Some(at),
            None => {}
        }
    }
    None
}

// The fields of a module, and those of a resource beside `parent`.
fn bad_fields(fields: &[Property]) -> Option<usize>
    ensures { result ≡ spec.bad_fields (properties (map view.property_of fields.now)) }
{
    match bad_names(fields) {
        Some(at) => Some(at),
        None => bad_dependents(fields),
    }
}

fn bad_parent_by(
    alloc: Global,
    kinds: &[Text],
    path: &Quoted,
    at: usize,
    parent: Option<usize>,
) -> Result<Option<usize>, OutOfMemory>
    ensures { IfOk result (λ o. o ≡ spec.bad_parent_by kinds.now path.now at parent) }
{
    match parent {
        None => Ok(Some(at)),
        Some(number) => {
            if is_child(alloc, known(kinds, number), &path.text)? {
                return Ok(None);
            }
            Ok(Some(path.at))
        }
    }
}

// The field `parent`.
#[tactic(auto, using(bicep_resolved::proofs::ViewLemmas::structs))]
fn bad_parent(
    alloc: Global,
    kinds: &[Text],
    path: &Quoted,
    field: &Property,
) -> Result<Option<usize>, OutOfMemory>
    ensures { IfOk result (λ o. o ≡ spec.bad_parent kinds.now path.now
        (view.property_of field.now).1 (view.property_of field.now).2) }
{
    if is_word(field.name.as_str(), "parent") {
        return bad_parent_by(
            alloc,
            kinds,
            path,
            field.value.at(),
            parent_of(&field.value),
        );
    }
    Ok(None)
}

fn bad_parents(
    alloc: Global,
    kinds: &[Text],
    path: &Quoted,
    fields: &[Property],
) -> Result<Option<usize>, OutOfMemory>
    ensures { IfOk result (λ o. o
        ≡ spec.bad_parents kinds.now path.now (properties (map view.property_of fields.now))) }
{
    for field in fields {
        match bad_parent(alloc, kinds, path, field)? {
            Some(at) => return Ok(Some(at)),
            None => {}
        }
    }
    Ok(None)
}

fn bad_resource(
    alloc: Global,
    kinds: &[Text],
    path: &Quoted,
    fields: &[Property],
) -> Result<Option<usize>, OutOfMemory>
    ensures { IfOk result (λ o. o ≡ or_else
        (spec.bad_parents kinds.now path.now (properties (map view.property_of fields.now)))
        (spec.bad_fields (properties (map view.property_of fields.now)))) }
{
    match bad_parents(alloc, kinds, path, fields)? {
        Some(at) => Ok(Some(at)),
        None => Ok(bad_fields(fields)),
    }
}

fn bad_declaration(
    alloc: Global,
    kinds: &[Text],
    declaration: &Declared,
) -> Result<Option<usize>, OutOfMemory>
    ensures { IfOk result (λ o. o ≡ spec.bad_declaration kinds.now (declared_tree declaration.now)) }
{
    match declaration {
        Declared::Parameter(_, _) | Declared::Variable(_, _) => Ok(None),
        Declared::ParameterWith(_, _, default) => Ok(mention_in(default)),
        Declared::Resource(_, path, _, body) => {
            bad_resource(alloc, kinds, path, body.fields.as_slice())
        }
        Declared::Module(_, body) => Ok(bad_fields(body.fields.as_slice())),
    }
}

fn bad_declarations(
    alloc: Global,
    kinds: &[Text],
    declarations: &[Declared],
) -> Result<Option<usize>, OutOfMemory>
    ensures { IfOk result (λ o. o ≡ spec.bad_declarations kinds.now (map declared_tree declarations.now)) }
{
    for declaration in declarations {
        match bad_declaration(alloc, kinds, declaration)? {
            Some(at) => return Ok(Some(at)),
            None => {}
        }
    }
    Ok(None)
}

/// The offset of the first thing in a file that may not be where it is, by what its names stand for, in bytes. The
/// declarations have these symbols.
///
/// # Errors
///
/// `OutOfMemory`.
pub fn misplaced_link(
    alloc: Global,
    entries: &[Entry],
    declarations: &[Declared],
) -> Result<Option<usize>, OutOfMemory>
    ensures { IfOk result (λ o. o
        ≡ spec.misplaced_link (map (λ e. e.kind) entries.now) (map declared_tree declarations.now)) }
{
    let wholes = whole_kinds(alloc, entries, declarations)?;
    bad_declarations(alloc, wholes.as_slice(), declarations)
}
