// Names that are given twice in a resource, and in the body of a module.
ghost use Rattle.std.specs.Prelude.{◌≡◌, IfOk, map};
ghost use Rattle.bicep_tree.specs.Tree as tree;
ghost use Rattle.bicep_tree.specs.View as view;
ghost use Rattle.bicep_members.specs.Parts as spec;

use crate::expressions::{repeated_in, repeated_in_all, repeated_in_loop, repeated_in_value};
use crate::labels::repeated_label;
use arm_value::OutOfMemory;
use bicep_tree::{Body, Decorator, Member, Object, Resource};
use std::alloc::Global;

#[tactic(auto, using(bicep_tree::proofs::ViewLemmas::structs))]
fn repeated_in_decorator(alloc: Global, decorator: &Decorator) -> Result<Option<usize>, OutOfMemory>
    ensures { IfOk result (λ o. o ≡ spec.repeated_in_decorator (view.decorator_of decorator.now)) }
{
    repeated_in_all(alloc, decorator.arguments.as_slice())
}

/// The first name that is given twice in decorators.
pub(crate) fn repeated_in_decorators(
    alloc: Global,
    decorators: &[Decorator],
) -> Result<Option<usize>, OutOfMemory>
    ensures { IfOk result (λ o. o
        ≡ spec.repeated_in_decorators (tree.decorators (map view.decorator_of decorators.now))) }
{
    for decorator in decorators {
        match repeated_in_decorator(alloc, decorator)? {
            Some(at) => return Ok(Some(at)),
            None => {}
        }
    }
    Ok(None)
}

/// The first name that is given twice in a resource.
#[cycle(resource)]
#[tactic(auto, using(bicep_tree::proofs::ViewLemmas::structs))]
pub(crate) fn repeated_in_resource(
    alloc: Global,
    resource: &Resource,
) -> Result<Option<usize>, OutOfMemory>
    ensures { IfOk result (λ o. o ≡ spec.repeated_in_resource (view.resource_of resource.now)) }
{
    repeated_in_body(alloc, &resource.body)
}

/// The first name that is given twice in the body of a resource or a module.
#[cycle(resource)]
#[tactic(auto, using(bicep_tree::proofs::ViewLemmas::enums))]
pub(crate) fn repeated_in_body(alloc: Global, body: &Body) -> Result<Option<usize>, OutOfMemory>
    ensures { IfOk result (λ o. o ≡ spec.repeated_in_body (view.body_of body.now)) }
{
    match body {
        Body::Plain(object) => repeated_in_fields(alloc, object),
        Body::If(_, condition, object) => match repeated_in(alloc, condition)? {
            Some(at) => Ok(Some(at)),
            None => repeated_in_fields(alloc, object),
        },
        Body::Each(each, object) => match repeated_in_loop(alloc, each)? {
            Some(at) => Ok(Some(at)),
            None => repeated_in_fields(alloc, object),
        },
        Body::EachIf(each, _, condition, object) => match repeated_in_loop(alloc, each)? {
            Some(at) => Ok(Some(at)),
            None => match repeated_in(alloc, condition)? {
                Some(at) => Ok(Some(at)),
                None => repeated_in_fields(alloc, object),
            },
        },
    }
}

#[cycle(resource)]
#[tactic(auto, using(bicep_tree::proofs::ViewLemmas::structs))]
fn repeated_in_fields(alloc: Global, object: &Object) -> Result<Option<usize>, OutOfMemory>
    ensures { IfOk result (λ o. o ≡ spec.repeated_in_fields (view.object_of object.now)) }
{
    match repeated_label(alloc, object.members.as_slice())? {
        Some(at) => Ok(Some(at)),
        None => repeated_in_all_fields(alloc, object.members.as_slice()),
    }
}

#[cycle(resource)]
fn repeated_in_all_fields(alloc: Global, members: &[Member]) -> Result<Option<usize>, OutOfMemory>
    ensures { IfOk result (λ o. o ≡ spec.repeated_in_all_fields (tree.members (map view.member_of members.now))) }
{
    for member in members {
        match repeated_in_field(alloc, member)? {
            Some(at) => return Ok(Some(at)),
            None => {}
        }
    }
    Ok(None)
}

#[cycle(resource)]
#[tactic(auto, using(bicep_tree::proofs::ViewLemmas::enums))]
fn repeated_in_field(alloc: Global, member: &Member) -> Result<Option<usize>, OutOfMemory>
    ensures { IfOk result (λ o. o ≡ spec.repeated_in_field (view.member_of member.now)) }
{
    match member {
        Member::Property(_, value) => repeated_in_value(alloc, value),
        Member::Child(decorators, resource) => match repeated_in_decorators(
            alloc,
            decorators.as_slice(),
        )? {
            Some(at) => Ok(Some(at)),
            None => repeated_in_resource(alloc, resource),
        },
    }
}
