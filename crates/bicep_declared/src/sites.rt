// The declarations of a file in source order.
ghost use Rattle.std.specs.Prelude.{◌≡◌, ◌++◌, ◌∷◌, [], map, IfOk, OnOk};
ghost use Rattle.bicep_tree.specs.Tree as tree;
ghost use Rattle.bicep_tree.specs.View as view;
ghost use Rattle.bicep_declared.specs.Sites as spec;
ghost use Rattle.bicep_declared.specs.View.{site_tree};

use arm_value::OutOfMemory;
use bicep_tree::{Body, Declaration, Member, Object, Resource, Statement};
use std::alloc::Global;

/// A declaration of a file.
#[derive(Clone, Copy)]
pub(crate) enum Site<'a> {
    /// One that is a statement.
    Statement(&'a Declaration),
    /// A resource that is nested in another.
    Nested(&'a Resource),
}

// Adds the resources that are nested in a resource.
#[cycle(sites)]
#[tactic(auto, using(bicep_tree::proofs::ViewLemmas::structs))]
fn add_nested<'a>(out: &mut Vec<Site<'a>>, resource: &'a Resource) -> Result<(), OutOfMemory>
    ensures { OnOk result (map site_tree out.new.items
        ≡ spec.with_nested (view.resource_of resource.now) (map site_tree out.old.items)) }
{
    add_body(out, &resource.body)
}

#[cycle(sites)]
#[tactic(auto, using(bicep_tree::proofs::ViewLemmas::enums))]
fn add_body<'a>(out: &mut Vec<Site<'a>>, body: &'a Body) -> Result<(), OutOfMemory>
    ensures { OnOk result (map site_tree out.new.items
        ≡ spec.with_body (view.body_of body.now) (map site_tree out.old.items)) }
{
    match body {
        Body::Plain(object)
        | Body::If(_, _, object)
        | Body::Each(_, object)
        | Body::EachIf(_, _, _, object) => add_object(out, object),
    }
}

#[cycle(sites)]
#[tactic(auto, using(bicep_tree::proofs::ViewLemmas::structs))]
fn add_object<'a>(out: &mut Vec<Site<'a>>, object: &'a Object) -> Result<(), OutOfMemory>
    ensures { OnOk result (map site_tree out.new.items
        ≡ spec.with_object (view.object_of object.now) (map site_tree out.old.items)) }
{
    add_members(out, object.members.as_slice())
}

#[cycle(sites)]
fn add_members<'a>(out: &mut Vec<Site<'a>>, members: &'a [Member]) -> Result<(), OutOfMemory>
    ensures { OnOk result (map site_tree out.new.items
        ≡ spec.with_members (tree.members (map view.member_of members.now)) (map site_tree out.old.items)) }
{
    for member in members {
        add_member(out, member)?;
    }
    Ok(())
}

#[cycle(sites)]
#[tactic(auto, using(bicep_tree::proofs::ViewLemmas::enums))]
fn add_member<'a>(out: &mut Vec<Site<'a>>, member: &'a Member) -> Result<(), OutOfMemory>
    ensures { OnOk result (map site_tree out.new.items
        ≡ spec.with_member (view.member_of member.now) (map site_tree out.old.items)) }
{
    match member {
        Member::Property(_, _) => Ok(()),
        Member::Child(_, resource) => {
            push_nested(out, resource)?;
            add_nested(out, resource)
        }
    }
}

// Adds a nested resource.
fn push_nested<'a>(out: &mut Vec<Site<'a>>, resource: &'a Resource) -> Result<(), OutOfMemory>
    ensures { OnOk result (map site_tree out.new.items
        ≡ map site_tree out.old.items ++ tree.a_resource (view.resource_of resource.now) ∷ []) }
{
    out.push(Site::Nested(resource))?;
    Ok(())
}

// Adds a statement's declaration.
fn push_statement<'a>(
    out: &mut Vec<Site<'a>>,
    declaration: &'a Declaration,
) -> Result<(), OutOfMemory>
    ensures { OnOk result (map site_tree out.new.items
        ≡ map site_tree out.old.items ++ view.declaration_of declaration.now ∷ []) }
{
    out.push(Site::Statement(declaration))?;
    Ok(())
}

// Adds what is nested in a declaration.
fn add_parts<'a>(out: &mut Vec<Site<'a>>, declaration: &'a Declaration) -> Result<(), OutOfMemory>
    ensures { OnOk result (map site_tree out.new.items
        ≡ spec.with_parts (view.declaration_of declaration.now) (map site_tree out.old.items)) }
{
    match declaration {
        Declaration::Resource(resource) => add_nested(out, resource),
        Declaration::Metadata(_, _, _)
        | Declaration::TargetScope(_, _)
        | Declaration::Param(_, _, _)
        | Declaration::ParamWith(_, _, _, _)
        | Declaration::Var(_, _, _)
        | Declaration::Output(_, _, _, _)
        | Declaration::Module(_, _, _, _) => Ok(()),
    }
}

fn add_statement<'a>(out: &mut Vec<Site<'a>>, statement: &'a Statement) -> Result<(), OutOfMemory>
    ensures { OnOk result (map site_tree out.new.items
        ≡ spec.with_statement (view.statement_of statement.now) (map site_tree out.old.items)) }
{
    push_statement(out, &statement.declaration)?;
    add_parts(out, &statement.declaration)
}

/// The declarations of a file in source order, a nested resource after its parent.
pub(crate) fn sites(alloc: Global, file: &[Statement]) -> Result<Vec<Site<'_>>, OutOfMemory>
    ensures { IfOk result (λ v. map site_tree v.items ≡ spec.declarations_of (view.file_of file.now)) }
{
    let mut out = Vec::new(alloc);
    for statement in file {
        add_statement(&mut out, statement)?;
    }
    Ok(out)
}
