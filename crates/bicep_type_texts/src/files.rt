// The type texts of a file.
ghost use Rattle.std.specs.Prelude.{◌≡◌, map, IfOk};
ghost use Rattle.bicep_tree.specs.Tree as tree;
ghost use Rattle.bicep_tree.specs.View as view;
ghost use Rattle.bicep_type_texts.specs.Files as spec;

use crate::texts::{is_part, is_whole};
use arm_value::OutOfMemory;
use bicep_tree::{Body, Declaration, Member, Object, Quoted, Resource, Statement};
use std::alloc::Global;

fn bad_whole(alloc: Global, path: &Quoted) -> Result<Option<usize>, OutOfMemory>
    ensures { IfOk result (λ o. o ≡ spec.bad_whole path.now) }
{
    if is_whole(alloc, &path.text)? {
        return Ok(None);
    }
    Ok(Some(path.at))
}

fn bad_part(path: &Quoted) -> Option<usize>
    ensures { result ≡ spec.bad_part path.now }
{
    if is_part(&path.text) {
        return None;
    }
    Some(path.at)
}

#[cycle(nested)]
#[tactic(auto, using(bicep_tree::proofs::ViewLemmas::structs))]
fn bad_in_nested(resource: &Resource) -> Option<usize>
    ensures { result ≡ spec.bad_in_nested (view.resource_of resource.now) }
{
    match bad_part(&resource.path) {
        Some(at) => Some(at),
        None => bad_in_body(&resource.body),
    }
}

#[cycle(nested)]
#[tactic(auto, using(bicep_tree::proofs::ViewLemmas::enums))]
fn bad_in_body(body: &Body) -> Option<usize>
    ensures { result ≡ spec.bad_in_body (view.body_of body.now) }
{
    match body {
        Body::Plain(object)
        | Body::If(_, _, object)
        | Body::Each(_, object)
        | Body::EachIf(_, _, _, object) => bad_in_object(object),
    }
}

#[cycle(nested)]
#[tactic(auto, using(bicep_tree::proofs::ViewLemmas::structs))]
fn bad_in_object(object: &Object) -> Option<usize>
    ensures { result ≡ spec.bad_in_object (view.object_of object.now) }
{
    bad_in_members(object.members.as_slice())
}

#[cycle(nested)]
fn bad_in_members(members: &[Member]) -> Option<usize>
    ensures { result ≡ spec.bad_in_members (tree.members (map view.member_of members.now)) }
{
    for member in members {
        match bad_in_member(member) {
            Some(at) => return Some(at),
            None => {}
        }
    }
    None
}

#[cycle(nested)]
#[tactic(auto, using(bicep_tree::proofs::ViewLemmas::enums))]
fn bad_in_member(member: &Member) -> Option<usize>
    ensures { result ≡ spec.bad_in_member (view.member_of member.now) }
{
    match member {
        Member::Property(_, _) => None,
        Member::Child(_, resource) => bad_in_nested(resource),
    }
}

#[tactic(auto, using(bicep_tree::proofs::ViewLemmas::structs))]
fn bad_in_resource(alloc: Global, resource: &Resource) -> Result<Option<usize>, OutOfMemory>
    ensures { IfOk result (λ o. o ≡ spec.bad_in_resource (view.resource_of resource.now)) }
{
    match bad_whole(alloc, &resource.path)? {
        Some(at) => Ok(Some(at)),
        None => Ok(bad_in_body(&resource.body)),
    }
}

fn bad_in_declaration(
    alloc: Global,
    declaration: &Declaration,
) -> Result<Option<usize>, OutOfMemory>
    ensures { IfOk result (λ o. o ≡ spec.bad_in_declaration (view.declaration_of declaration.now)) }
{
    match declaration {
        Declaration::Resource(resource) => bad_in_resource(alloc, resource),
        Declaration::Metadata(_, _, _)
        | Declaration::TargetScope(_, _)
        | Declaration::Param(_, _, _)
        | Declaration::ParamWith(_, _, _, _)
        | Declaration::Var(_, _, _)
        | Declaration::Output(_, _, _, _)
        | Declaration::Module(_, _, _, _) => Ok(None),
    }
}

/// The offset of the first type text of a file that is none, in bytes: that of a resource that is not nested has a
/// type of two segments or more, none of which is empty, and a version; that of a nested resource has one segment, and
/// a version or none.
///
/// # Errors
///
/// `OutOfMemory`.
pub fn bad_type(alloc: Global, file: &[Statement]) -> Result<Option<usize>, OutOfMemory>
    ensures { IfOk result (λ o. o ≡ spec.bad_type (view.file_of file.now)) }
{
    for statement in file {
        match bad_in_declaration(alloc, &statement.declaration)? {
            Some(at) => return Ok(Some(at)),
            None => {}
        }
    }
    Ok(None)
}
