//! The decorators of the symbols of a file, in source order.
ghost use Rattle.std.specs.Prelude.{◌≡◌, ◌++◌, ◌∷◌, [], map, IfOk, OnOk};
ghost use Rattle.bicep_tree.specs.Tree as tree;
ghost use Rattle.bicep_tree.specs.View as view;
ghost use Rattle.symbol_decorators.specs.Decorators as spec;
ghost use Rattle.symbol_decorators.specs.View.{decorators_at};

use arm_value::OutOfMemory;
use bicep_tree::{Body, Declaration, Decorator, Member, Object, Resource, Statement};
use std::alloc::Global;

/// The decorators of a symbol.
#[derive(Clone, Copy)]
pub struct Decorated<'a> {
    /// The decorators in order.
    pub decorators: &'a [Decorator],
}

// Adds the decorators of a symbol.
fn push<'a>(out: &mut Vec<Decorated<'a>>, decorators: &'a Vec<Decorator>) -> Result<(), OutOfMemory>
    ensures { OnOk result (map decorators_at out.new.items
        ≡ map decorators_at out.old.items ++ tree.decorators (map view.decorator_of decorators.now.items) ∷ []) }
{
    out.push(Decorated {
        decorators: decorators.as_slice(),
    })?;
    Ok(())
}

// Adds those of the resources that are nested in a resource.
#[cycle(listing)]
#[tactic(auto, using(bicep_tree::proofs::ViewLemmas::structs))]
fn add_nested<'a>(out: &mut Vec<Decorated<'a>>, resource: &'a Resource) -> Result<(), OutOfMemory>
    ensures { OnOk result (map decorators_at out.new.items
        ≡ spec.with_nested (view.resource_of resource.now) (map decorators_at out.old.items)) }
{
    add_body(out, &resource.body)
}

#[cycle(listing)]
#[tactic(auto, using(bicep_tree::proofs::ViewLemmas::enums))]
fn add_body<'a>(out: &mut Vec<Decorated<'a>>, body: &'a Body) -> Result<(), OutOfMemory>
    ensures { OnOk result (map decorators_at out.new.items
        ≡ spec.with_body (view.body_of body.now) (map decorators_at out.old.items)) }
{
    match body {
        Body::Plain(object)
        | Body::If(_, _, object)
        | Body::Each(_, object)
        | Body::EachIf(_, _, _, object) => add_object(out, object),
    }
}

#[cycle(listing)]
#[tactic(auto, using(bicep_tree::proofs::ViewLemmas::structs))]
fn add_object<'a>(out: &mut Vec<Decorated<'a>>, object: &'a Object) -> Result<(), OutOfMemory>
    ensures { OnOk result (map decorators_at out.new.items
        ≡ spec.with_object (view.object_of object.now) (map decorators_at out.old.items)) }
{
    add_members(out, object.members.as_slice())
}

#[cycle(listing)]
fn add_members<'a>(out: &mut Vec<Decorated<'a>>, members: &'a [Member]) -> Result<(), OutOfMemory>
    ensures { OnOk result (map decorators_at out.new.items
        ≡ spec.with_members (tree.members (map view.member_of members.now)) (map decorators_at out.old.items)) }
{
    for member in members {
        add_member(out, member)?;
    }
    Ok(())
}

#[cycle(listing)]
#[tactic(auto, using(bicep_tree::proofs::ViewLemmas::enums))]
fn add_member<'a>(out: &mut Vec<Decorated<'a>>, member: &'a Member) -> Result<(), OutOfMemory>
    ensures { OnOk result (map decorators_at out.new.items
        ≡ spec.with_member (view.member_of member.now) (map decorators_at out.old.items)) }
{
    match member {
        Member::Property(_, _) => Ok(()),
        Member::Child(decorators, resource) => {
            push(out, decorators)?;
            add_nested(out, resource)
        }
    }
}

// Adds those of a resource and of the resources that are nested in it.
fn add_resource<'a>(
    out: &mut Vec<Decorated<'a>>,
    decorators: &'a Vec<Decorator>,
    resource: &'a Resource,
) -> Result<(), OutOfMemory>
    ensures { OnOk result (map decorators_at out.new.items
        ≡ spec.with_resource (tree.decorators (map view.decorator_of decorators.now.items))
        (view.resource_of resource.now) (map decorators_at out.old.items)) }
{
    push(out, decorators)?;
    add_nested(out, resource)
}

// Adds those of the symbols of a statement.
fn add_statement<'a>(
    out: &mut Vec<Decorated<'a>>,
    statement: &'a Statement,
) -> Result<(), OutOfMemory>
    ensures { OnOk result (map decorators_at out.new.items
        ≡ spec.with_statement (view.statement_of statement.now) (map decorators_at out.old.items)) }
{
    match &statement.declaration {
        Declaration::Metadata(_, _, _)
        | Declaration::TargetScope(_, _)
        | Declaration::Output(_, _, _, _) => Ok(()),
        Declaration::Param(_, _, _)
        | Declaration::ParamWith(_, _, _, _)
        | Declaration::Var(_, _, _)
        | Declaration::Module(_, _, _, _) => push(out, &statement.decorators),
        Declaration::Resource(resource) => add_resource(out, &statement.decorators, resource),
    }
}

/// The decorators of the symbols of a file, by their numbers.
///
/// # Errors
///
/// `OutOfMemory`.
pub fn decorators(alloc: Global, file: &[Statement]) -> Result<Vec<Decorated<'_>>, OutOfMemory>
    ensures { IfOk result (λ v. map decorators_at v.items ≡ spec.decorators_of (view.file_of file.now)) }
{
    let mut out = Vec::new(alloc);
    for statement in file {
        add_statement(&mut out, statement)?;
    }
    Ok(out)
}
