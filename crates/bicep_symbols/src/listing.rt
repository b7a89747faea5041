// The symbols of a file in source order.
ghost use Rattle.std.specs.Prelude.{◌≡◌, ◌++◌, ◌∷◌, [], length, map, IfOk, OnOk};
ghost use Rattle.bicep_tree.specs.Tree as tree;
ghost use Rattle.bicep_tree.specs.View as view;
ghost use Rattle.bicep_symbols.specs.Entries as spec;

use crate::entry::Entry;
use arm_value::OutOfMemory;
use bicep_names::Kind;
use bicep_tree::{Body, Declaration, Member, Name, Object, Resource, Statement};
use std::alloc::Global;

// Adds a symbol.
fn push(alloc: Global, out: &mut Vec<Entry>, name: &Name, kind: Kind) -> Result<(), OutOfMemory>
    ensures { OnOk result (map spec.symbol_of out.new.items
        ≡ map spec.symbol_of out.old.items ++ spec.symbol_at name.now kind ∷ []) }
{
    let text = name.text.copy(alloc)?;
    out.push(Entry {
        at: name.at,
        name: text,
        kind,
    })?;
    Ok(())
}

#[tactic(auto, using(bicep_tree::proofs::ViewLemmas::enums))]
fn resource_kind(inside: Option<usize>, body: &Body) -> Kind
    ensures { result ≡ spec.resource_kind inside (view.body_of body.now) }
{
    match body {
        Body::Plain(_) | Body::If(_, _, _) => Kind::Resource(inside),
        Body::Each(_, _) | Body::EachIf(_, _, _, _) => Kind::ResourceLoop(inside),
    }
}

#[tactic(auto, using(bicep_tree::proofs::ViewLemmas::enums))]
fn module_kind(file: usize, body: &Body) -> Kind
    ensures { result ≡ spec.module_kind file (view.body_of body.now) }
{
    match body {
        Body::Plain(_) | Body::If(_, _, _) => Kind::Module(file),
        Body::Each(_, _) | Body::EachIf(_, _, _, _) => Kind::ModuleLoop(file),
    }
}

// The number of the next symbol.
fn count(out: &Vec<Entry>) -> usize
    ensures { result ≡ length (map spec.symbol_of out.now.items) }
{
    out.len()
}

// Adds a resource and the resources that are nested in it.
#[cycle(entries)]
#[tactic(auto, using(bicep_tree::proofs::ViewLemmas::structs))]
fn add_resource(
    alloc: Global,
    out: &mut Vec<Entry>,
    inside: Option<usize>,
    resource: &Resource,
) -> Result<(), OutOfMemory>
    ensures { OnOk result (map spec.symbol_of out.new.items
        ≡ spec.with_resource inside (view.resource_of resource.now) (map spec.symbol_of out.old.items)) }
{
    let number = count(out);
    push(
        alloc,
        out,
        &resource.name,
        resource_kind(inside, &resource.body),
    )?;
    add_body(alloc, out, number, &resource.body)
}

#[cycle(entries)]
#[tactic(auto, using(bicep_tree::proofs::ViewLemmas::enums))]
fn add_body(
    alloc: Global,
    out: &mut Vec<Entry>,
    number: usize,
    body: &Body,
) -> Result<(), OutOfMemory>
    ensures { OnOk result (map spec.symbol_of out.new.items
        ≡ spec.with_body number (view.body_of body.now) (map spec.symbol_of out.old.items)) }
{
    match body {
        Body::Plain(object)
        | Body::If(_, _, object)
        | Body::Each(_, object)
        | Body::EachIf(_, _, _, object) => add_object(alloc, out, number, object),
    }
}

#[cycle(entries)]
#[tactic(auto, using(bicep_tree::proofs::ViewLemmas::structs))]
fn add_object(
    alloc: Global,
    out: &mut Vec<Entry>,
    number: usize,
    object: &Object,
) -> Result<(), OutOfMemory>
    ensures { OnOk result (map spec.symbol_of out.new.items
        ≡ spec.with_object number (view.object_of object.now) (map spec.symbol_of out.old.items)) }
{
    add_members(alloc, out, number, object.members.as_slice())
}

#[cycle(entries)]
fn add_members(
    alloc: Global,
    out: &mut Vec<Entry>,
    number: usize,
    members: &[Member],
) -> Result<(), OutOfMemory>
    ensures { OnOk result (map spec.symbol_of out.new.items
        ≡ spec.with_members number (tree.members (map view.member_of members.now))
        (map spec.symbol_of out.old.items)) }
{
    for member in members {
        add_member(alloc, out, number, member)?;
    }
    Ok(())
}

#[cycle(entries)]
#[tactic(auto, using(bicep_tree::proofs::ViewLemmas::enums))]
fn add_member(
    alloc: Global,
    out: &mut Vec<Entry>,
    number: usize,
    member: &Member,
) -> Result<(), OutOfMemory>
    ensures { OnOk result (map spec.symbol_of out.new.items
        ≡ spec.with_member number (view.member_of member.now) (map spec.symbol_of out.old.items)) }
{
    match member {
        Member::Property(_, _) => Ok(()),
        Member::Child(_, resource) => add_resource(alloc, out, Some(number), resource),
    }
}

// Adds the symbols of a declaration.
fn add_declaration(
    alloc: Global,
    out: &mut Vec<Entry>,
    file: usize,
    declaration: &Declaration,
) -> Result<(), OutOfMemory>
    ensures { OnOk result (map spec.symbol_of out.new.items
        ≡ spec.with_declaration file (view.declaration_of declaration.now) (map spec.symbol_of out.old.items)) }
{
    match declaration {
        Declaration::Metadata(_, _, _)
        | Declaration::TargetScope(_, _)
        | Declaration::Output(_, _, _, _) => Ok(()),
        Declaration::Param(_, name, _) | Declaration::ParamWith(_, name, _, _) => {
            push(alloc, out, name, Kind::Parameter)
        }
        Declaration::Var(_, name, _) => push(alloc, out, name, Kind::Variable),
        Declaration::Resource(resource) => add_resource(alloc, out, None, resource),
        Declaration::Module(_, name, _, body) => { push(alloc, out, name, module_kind(file, body)) }
    }
}

// The numbers of the files of the modules after a declaration.
fn files_after<'a>(declaration: &Declaration, files: &'a [u32]) -> &'a [u32]
    ensures { result.now ≡ spec.files_after (view.declaration_of declaration.now) files.now }
{
    match declaration {
        Declaration::Module(_, _, _, _) => match files {
            [_, rest @ ..] => rest,
            [] => files,
        },
        Declaration::Metadata(_, _, _)
        | Declaration::TargetScope(_, _)
        | Declaration::Param(_, _, _)
        | Declaration::ParamWith(_, _, _, _)
        | Declaration::Var(_, _, _)
        | Declaration::Output(_, _, _, _)
        | Declaration::Resource(_) => files,
    }
}

fn first_file(files: &[u32]) -> usize
    ensures { result ≡ spec.first_file files.now }
{
    match files {
        [first, ..] => *first as usize,
        [] => 0,
    }
}

/// The symbols of a file in source order. `modules` has for each module of the file the number of its file.
pub(crate) fn entries(
    alloc: Global,
    modules: &[u32],
    file: &[Statement],
) -> Result<Vec<Entry>, OutOfMemory>
    ensures { IfOk result (λ es. map spec.symbol_of es.items ≡ spec.symbols_of modules.now (view.file_of file.now)) }
{
    let mut out = Vec::new(alloc);
    let mut files = modules;
    for statement in file {
        add_declaration(alloc, &mut out, first_file(files), &statement.declaration)?;
        files = files_after(&statement.declaration, files);
    }
    Ok(out)
}
