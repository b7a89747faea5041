// What is misplaced in a resource or a module.
ghost use Rattle.std.specs.Prelude.{◌≡◌, map, chars};
ghost use Rattle.bicep_tree.specs.Tree as tree;
ghost use Rattle.bicep_tree.specs.View as view;
ghost use Rattle.bicep_tree.specs.Offset.{resource_offset};
ghost use Rattle.bicep_misplaced.specs.Resources as spec;
ghost use Rattle.bicep_tree.specs.Declarations.{body_members};

use crate::expressions::{bad_in, bad_in_all};
use crate::spot::{Owner, Repeated, Spot};
use crate::types::{is_bad_path, is_one_segment};
use crate::words::{is_bad_field, is_bad_name};
use bicep_tree::{Body, Decorator, Label, Loop, Member, Object, Quoted, Resource, Value, is_word};

// ---- decorators

#[tactic(auto, using(bicep_tree::proofs::ViewLemmas::structs))]
fn bad_in_decorator(decorator: &Decorator) -> Option<usize>
    ensures { result ≡ spec.bad_in_decorator (view.decorator_of decorator.now) }
{
    bad_in_all(Spot::Outside, decorator.arguments.as_slice())
}

/// The first misplaced thing in decorators.
pub(crate) fn bad_in_decorators(decorators: &[Decorator]) -> Option<usize>
    ensures { result ≡ spec.bad_in_decorators (tree.decorators (map view.decorator_of decorators.now)) }
{
    for decorator in decorators {
        match bad_in_decorator(decorator) {
            Some(at) => return Some(at),
            None => {}
        }
    }
    None
}

// ---- fields

fn bad_field(owner: Owner, label: &Label) -> Option<usize>
    ensures { result ≡ spec.bad_field owner label.now }
{
    if is_bad_field(owner, label.text()) || is_bad_name(Spot::Field, label.text()) {
        return Some(label.at());
    }
    None
}

// The value of a field is no for-expression.
#[tactic(auto, using(bicep_tree::proofs::ViewLemmas::enums, bicep_tree::proofs::ViewLemmas::structs))]
fn bad_in_field_value(value: &Value) -> Option<usize>
    ensures { result ≡ spec.bad_in_field_value (view.value_of value.now) }
{
    match value {
        Value::Plain(e) => bad_in(Spot::Field, e),
        Value::Each(each, _) => Some(each.at),
    }
}

// Whether a member is a field of that name, letter by letter.
#[tactic(auto, using(bicep_tree::proofs::ViewLemmas::enums))]
fn is_name(member: &Member) -> bool
    ensures { result ≡ spec.is_field spec.name_word (view.member_of member.now) }
{
    match member {
        Member::Property(label, _) => is_word(label.text().as_str(), "name"),
        Member::Child(_, _) => false,
    }
}

#[tactic(auto, using(bicep_tree::proofs::ViewLemmas::enums))]
fn is_parent(member: &Member) -> bool
    ensures { result ≡ spec.is_field spec.parent_word (view.member_of member.now) }
{
    match member {
        Member::Property(label, _) => is_word(label.text().as_str(), "parent"),
        Member::Child(_, _) => false,
    }
}

fn has_name(members: &[Member]) -> bool
    ensures { result ≡ spec.has_field spec.name_word (tree.members (map view.member_of members.now)) }
{
    for member in members {
        if is_name(member) {
            return true;
        }
    }
    false
}

fn has_parent(members: &[Member]) -> bool
    ensures { result ≡ spec.has_field spec.parent_word (tree.members (map view.member_of members.now)) }
{
    for member in members {
        if is_parent(member) {
            return true;
        }
    }
    false
}

// ---- bodies

#[tactic(auto, using(bicep_tree::proofs::ViewLemmas::structs))]
fn bad_in_loop(each: &Loop) -> Option<usize>
    ensures { result ≡ spec.bad_in_loop (view.loop_of each.now) }
{
    bad_in(Spot::Inside, &each.over)
}

fn bad_path(path: &Quoted) -> Option<usize>
    ensures { result ≡ spec.bad_path path.now }
{
    if is_bad_path(&path.text) {
        return Some(path.at);
    }
    None
}

// An existing resource has no condition.
#[tactic(auto, using(bicep_tree::proofs::ViewLemmas::enums))]
fn bad_condition(existing: bool, body: &Body) -> Option<usize>
    ensures { result ≡ spec.bad_condition existing (view.body_of body.now) }
{
    match body {
        Body::If(at, _, _) | Body::EachIf(_, at, _, _) => if existing { Some(*at) } else { None },
        Body::Plain(_) | Body::Each(_, _) => None,
    }
}

#[tactic(auto, using(bicep_tree::proofs::ViewLemmas::structs))]
fn members_of(object: &Object) -> &[Member]
    ensures { tree.members (map view.member_of result.now) ≡ spec.object_members (view.object_of object.now) }
{
    object.members.as_slice()
}

#[tactic(auto, using(bicep_tree::proofs::ViewLemmas::enums))]
fn body_members(body: &Body) -> &[Member]
    ensures { tree.members (map view.member_of result.now) ≡ body_members (view.body_of body.now) }
{
    match body {
        Body::Plain(object)
        | Body::If(_, _, object)
        | Body::Each(_, object)
        | Body::EachIf(_, _, _, object) => members_of(object),
    }
}

// A resource has a name.
fn missing_name(at: usize, body: &Body) -> Option<usize>
    ensures { result ≡ spec.missing_name at (view.body_of body.now) }
{
    if has_name(body_members(body)) {
        return None;
    }
    Some(at)
}

fn parented(path: &Quoted, members: &[Member]) -> Option<usize>
    ensures { result ≡ spec.parented path.now (tree.members (map view.member_of members.now)) }
{
    if is_one_segment(&path.text) && has_parent(members) {
        return Some(path.at);
    }
    None
}

// Beside `parent` the type text names the whole type, which has two segments or more.
fn short_type(owner: Owner, path: &Quoted, body: &Body) -> Option<usize>
    ensures { result ≡ spec.short_type owner path.now (view.body_of body.now) }
{
    match owner {
        Owner::Resource | Owner::Module => parented(path, body_members(body)),
        Owner::Nested => None,
    }
}

// What is misplaced in a resource beside its body.
fn bad_around(owner: Owner, at: usize, path: &Quoted, existing: bool, body: &Body) -> Option<usize>
    ensures { result ≡ spec.bad_around owner at path.now existing (view.body_of body.now) }
{
    match bad_path(path) {
        Some(at) => return Some(at),
        None => {}
    }
    match bad_condition(existing, body) {
        Some(at) => return Some(at),
        None => {}
    }
    match missing_name(at, body) {
        Some(at) => return Some(at),
        None => {}
    }
    short_type(owner, path, body)
}

/// The first misplaced thing in a resource.
#[cycle(resource)]
#[tactic(auto, using(bicep_tree::proofs::ViewLemmas::structs))]
pub(crate) fn bad_in_resource(owner: Owner, resource: &Resource) -> Option<usize>
    ensures { result ≡ spec.bad_in_resource owner (view.resource_of resource.now) }
{
    match bad_around(
        owner,
        resource.at,
        &resource.path,
        resource.existing,
        &resource.body,
    ) {
        Some(at) => Some(at),
        None => bad_in_body(owner, &resource.body),
    }
}

/// The first misplaced thing in the body of a resource or a module.
#[cycle(resource)]
#[tactic(auto, using(bicep_tree::proofs::ViewLemmas::enums))]
pub(crate) fn bad_in_body(owner: Owner, body: &Body) -> Option<usize>
    ensures { result ≡ spec.bad_in_body owner (view.body_of body.now) }
{
    match body {
        Body::Plain(object) => bad_in_fields(owner, Repeated::Once, object),
        Body::If(_, condition, object) => match bad_in(Spot::Inside, condition) {
            Some(at) => Some(at),
            None => bad_in_fields(owner, Repeated::Once, object),
        },
        Body::Each(each, object) => match bad_in_loop(each) {
            Some(at) => Some(at),
            None => bad_in_fields(owner, Repeated::Each, object),
        },
        Body::EachIf(each, _, condition, object) => match bad_in_loop(each) {
            Some(at) => Some(at),
            None => match bad_in(Spot::Inside, condition) {
                Some(at) => Some(at),
                None => bad_in_fields(owner, Repeated::Each, object),
            },
        },
    }
}

#[cycle(resource)]
#[tactic(auto, using(bicep_tree::proofs::ViewLemmas::structs))]
fn bad_in_fields(owner: Owner, repeated: Repeated, object: &Object) -> Option<usize>
    ensures { result ≡ spec.bad_in_fields owner repeated (view.object_of object.now) }
{
    bad_in_all_fields(owner, repeated, object.members.as_slice())
}

#[cycle(resource)]
fn bad_in_all_fields(owner: Owner, repeated: Repeated, members: &[Member]) -> Option<usize>
    ensures { result ≡ spec.bad_in_all_fields owner repeated (tree.members (map view.member_of members.now)) }
{
    for member in members {
        match bad_in_field(owner, repeated, member) {
            Some(at) => return Some(at),
            None => {}
        }
    }
    None
}

#[cycle(resource)]
#[tactic(auto, using(bicep_tree::proofs::ViewLemmas::enums))]
fn bad_in_field(owner: Owner, repeated: Repeated, member: &Member) -> Option<usize>
    ensures { result ≡ spec.bad_in_field owner repeated (view.member_of member.now) }
{
    match member {
        Member::Property(label, value) => match bad_field(owner, label) {
            Some(at) => Some(at),
            None => bad_in_field_value(value),
        },
        Member::Child(decorators, resource) => match bad_in_decorators(decorators.as_slice()) {
            Some(at) => Some(at),
            None => bad_in_nested(owner, repeated, resource),
        },
    }
}

// A resource is written in the body of a resource that is no loop.
#[cycle(resource)]
#[tactic(auto, using(bicep_tree::proofs::ViewLemmas::structs))]
fn bad_in_nested(around: Owner, repeated: Repeated, resource: &Resource) -> Option<usize>
    ensures { result ≡ spec.nested_at around repeated (resource_offset (view.resource_of resource.now))
        (spec.bad_in_resource Owner.Nested (view.resource_of resource.now)) }
{
    match around {
        Owner::Module => Some(resource.at),
        Owner::Resource | Owner::Nested => match repeated {
            Repeated::Each => Some(resource.at),
            Repeated::Once => bad_in_resource(Owner::Nested, resource),
        },
    }
}
