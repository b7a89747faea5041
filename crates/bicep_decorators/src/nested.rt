// The decorators of a file.
ghost use Rattle.std.specs.Prelude.{◌≡◌, map};
ghost use Rattle.bicep_tree.specs.Tree as tree;
ghost use Rattle.bicep_tree.specs.View as view;
ghost use Rattle.bicep_decorators.specs.Decorators.{function_text, decorator_name, decorator_at, admits, is_allowed};
ghost use Rattle.bicep_decorators.specs.Decorators.{is_among, is_fine, bad_at, bad_in_resource, bad_in_body};
ghost use Rattle.bicep_decorators.specs.Decorators.{bad_in_object, bad_in_members, bad_in_member};
ghost use Rattle.bicep_decorators.specs.Decorators.{bad_in_declaration, bad_in_statement, bad_in_file};

use crate::arguments::takes;
use crate::kind::{DecoratorKind, decorator_named, may_be};
use crate::place::{Place, place_of, resource_place};
use arm_value::Text;
use bicep_tree::{
    Body, Declaration, Decorator, Expr, Function, Member, Object, Resource, Statement,
};

fn function_text(function: &Function) -> &Text
    ensures { result.now ≡ function_text function.now }
{
    match function {
        Function::Plain(name) => &name.text,
        Function::Qualified(_, _, name) => &name.text,
    }
}

// The name of a decorator, without `sys.`.
#[tactic(auto, using(bicep_tree::proofs::ViewLemmas::structs))]
fn decorator_name(decorator: &Decorator) -> &Text
    ensures { result.now ≡ decorator_name (view.decorator_of decorator.now) }
{
    function_text(&decorator.function)
}

#[tactic(auto, using(bicep_tree::proofs::ViewLemmas::structs))]
fn decorator_at(decorator: &Decorator) -> usize
    ensures { result ≡ decorator_at (view.decorator_of decorator.now) }
{
    decorator.at
}

fn admits(place: Place, kind: Option<DecoratorKind>, arguments: &[Expr]) -> bool
    ensures { result ≡ admits place kind (tree.trees (map view.tree_of arguments.now)) }
{
    match kind {
        Some(kind) => may_be(place, kind) && takes(kind, arguments),
        None => false,
    }
}

// Whether the decorator may be at the place, with its arguments.
#[tactic(auto, using(bicep_tree::proofs::ViewLemmas::structs))]
fn is_allowed(place: Place, decorator: &Decorator) -> bool
    ensures { result ≡ is_allowed place (view.decorator_of decorator.now) }
{
    let kind = decorator_named(function_text(&decorator.function));
    admits(place, kind, decorator.arguments.as_slice())
}

// Whether one of these decorators has the name.
fn is_among(decorators: &[Decorator], name: &Text) -> bool
    ensures { result ≡ is_among (map (λ d. decorator_name (view.decorator_of d)) decorators.now) name.now }
{
    for decorator in decorators {
        if name.is_same(decorator_name(decorator)) {
            return true;
        }
    }
    false
}

// Whether the decorator may be at the place, and was not given before.
fn is_fine(place: Place, before: &[Decorator], decorator: &Decorator) -> bool
    ensures { result ≡ is_fine place (map (λ d. decorator_name (view.decorator_of d)) before.now)
        (view.decorator_of decorator.now) }
{
    is_allowed(place, decorator) && !is_among(before, decorator_name(decorator))
}

// The offset of the first decorator that may not be at the place, or that was given before.
fn bad_at(place: Place, decorators: &[Decorator]) -> Option<usize>
    ensures { result ≡ bad_at place (tree.decorators (map view.decorator_of decorators.now)) }
{
    for (index, decorator) in decorators.iter().enumerate() {
        if !is_fine(place, &decorators[..index], decorator) {
            return Some(decorator_at(decorator));
        }
    }
    None
}

// The first bad decorator of the resources that are nested in a resource.
#[cycle(nested)]
#[tactic(auto, using(bicep_tree::proofs::ViewLemmas::structs))]
fn bad_in_resource(resource: &Resource) -> Option<usize>
    ensures { result ≡ bad_in_resource (view.resource_of resource.now) }
{
    bad_in_body(&resource.body)
}

#[cycle(nested)]
#[tactic(auto, using(bicep_tree::proofs::ViewLemmas::enums))]
fn bad_in_body(body: &Body) -> Option<usize>
    ensures { result ≡ bad_in_body (view.body_of body.now) }
{
    match body {
        Body::Plain(object)
        | Body::If(_, _, object)
        | Body::Each(_, object)
        | Body::EachIf(_, _, _, object) => bad_in_object(object),
    }
}

#[cycle(nested)]
#[tactic(auto, using(bicep_tree::proofs::ViewLemmas::structs))]
fn bad_in_object(object: &Object) -> Option<usize>
    ensures { result ≡ bad_in_object (view.object_of object.now) }
{
    bad_in_members(object.members.as_slice())
}

#[cycle(nested)]
fn bad_in_members(members: &[Member]) -> Option<usize>
    ensures { result ≡ bad_in_members (tree.members (map view.member_of members.now)) }
{
    for member in members {
        match bad_in_member(member) {
            Some(at) => return Some(at),
            None => {}
        }
    }
    None
}

#[cycle(nested)]
#[tactic(auto, using(bicep_tree::proofs::ViewLemmas::enums))]
fn bad_in_member(member: &Member) -> Option<usize>
    ensures { result ≡ bad_in_member (view.member_of member.now) }
{
    match member {
        Member::Property(_, _) => None,
        Member::Child(decorators, resource) => {
            match bad_at(resource_place(resource), decorators.as_slice()) {
                Some(at) => Some(at),
                None => bad_in_resource(resource),
            }
        }
    }
}

fn bad_in_declaration(declaration: &Declaration) -> Option<usize>
    ensures { result ≡ bad_in_declaration (view.declaration_of declaration.now) }
{
    match declaration {
        Declaration::Resource(resource) => bad_in_resource(resource),
        Declaration::Metadata(..)
        | Declaration::TargetScope(..)
        | Declaration::Param(..)
        | Declaration::ParamWith(..)
        | Declaration::Var(..)
        | Declaration::Output(..)
        | Declaration::Module(..) => None,
    }
}

fn bad_in_statement(statement: &Statement) -> Option<usize>
    ensures { result ≡ bad_in_statement (view.statement_of statement.now) }
{
    let place = place_of(&statement.declaration);
    match bad_at(place, statement.decorators.as_slice()) {
        Some(at) => Some(at),
        None => bad_in_declaration(&statement.declaration),
    }
}

/// The offset of the first decorator of a file that may not be where it is, that has other arguments than it takes, or
/// that was given before.
pub fn bad_decorator(file: &[Statement]) -> Option<usize>
    ensures { result ≡ bad_in_file (view.file_of file.now) }
{
    for statement in file {
        match bad_in_statement(statement) {
            Some(at) => return Some(at),
            None => {}
        }
    }
    None
}
