// Names that are given twice in the objects and loops of an expression.
ghost use Rattle.std.specs.Prelude.{◌≡◌, IfOk, map};
ghost use Rattle.bicep_tree.specs.Tree as tree;
ghost use Rattle.bicep_tree.specs.View as view;
ghost use Rattle.bicep_members.specs.Parts as spec;

use crate::labels::{repeated_index, repeated_label};
use arm_value::OutOfMemory;
use bicep_tree::{Expr, Hole, Loop, Member, Object, Value};
use std::alloc::Global;

/// The first name that is given twice in an expression.
#[cycle(repeated)]
#[tactic(auto, using(bicep_tree::proofs::ViewLemmas::enums))]
pub(crate) fn repeated_in(alloc: Global, e: &Expr) -> Result<Option<usize>, OutOfMemory>
    ensures { IfOk result (λ o. o ≡ spec.repeated_in (view.tree_of e.now)) }
{
    match e {
        Expr::Name(_) => Ok(None),
        Expr::Literal(_, _) => Ok(None),
        Expr::Interpolated(_, _, holes) => repeated_in_holes(alloc, holes.as_slice()),
        Expr::Object(object) => repeated_in_object(alloc, object),
        Expr::Array(_, items) => repeated_in_all(alloc, items.as_slice()),
        Expr::Parentheses(_, part) => repeated_in(alloc, part),
        Expr::Call(_, arguments) => repeated_in_all(alloc, arguments.as_slice()),
        Expr::Access(whole, _, _) => repeated_in(alloc, whole),
        Expr::Index(whole, _, index) => match repeated_in(alloc, whole)? {
            Some(at) => Ok(Some(at)),
            None => repeated_in(alloc, index),
        },
        Expr::NotNull(part) => repeated_in(alloc, part),
        Expr::Prefix(_, _, operand) => repeated_in(alloc, operand),
        Expr::Binary(_, first, second) => match repeated_in(alloc, first)? {
            Some(at) => Ok(Some(at)),
            None => repeated_in(alloc, second),
        },
        Expr::Conditional(condition, yes, no) => match repeated_in(alloc, condition)? {
            Some(at) => Ok(Some(at)),
            None => match repeated_in(alloc, yes)? {
                Some(at) => Ok(Some(at)),
                None => repeated_in(alloc, no),
            },
        },
    }
}

/// The first name that is given twice in these expressions.
#[cycle(repeated)]
pub(crate) fn repeated_in_all(alloc: Global, es: &[Expr]) -> Result<Option<usize>, OutOfMemory>
    ensures { IfOk result (λ o. o ≡ spec.repeated_in_all (tree.trees (map view.tree_of es.now))) }
{
    for e in es {
        match repeated_in(alloc, e)? {
            Some(at) => return Ok(Some(at)),
            None => {}
        }
    }
    Ok(None)
}

#[cycle(repeated)]
fn repeated_in_holes(alloc: Global, holes: &[Hole]) -> Result<Option<usize>, OutOfMemory>
    ensures { IfOk result (λ o. o ≡ spec.repeated_in_holes (tree.holes (map view.hole_of holes.now))) }
{
    for hole in holes {
        match repeated_in_hole(alloc, hole)? {
            Some(at) => return Ok(Some(at)),
            None => {}
        }
    }
    Ok(None)
}

#[cycle(repeated)]
#[tactic(auto, using(bicep_tree::proofs::ViewLemmas::structs))]
fn repeated_in_hole(alloc: Global, hole: &Hole) -> Result<Option<usize>, OutOfMemory>
    ensures { IfOk result (λ o. o ≡ spec.repeated_in (view.hole_of hole.now).0) }
{
    repeated_in(alloc, &hole.value)
}

#[cycle(repeated)]
#[tactic(auto, using(bicep_tree::proofs::ViewLemmas::structs))]
fn repeated_in_object(alloc: Global, object: &Object) -> Result<Option<usize>, OutOfMemory>
    ensures { IfOk result (λ o. o ≡ spec.repeated_in_object (view.object_of object.now)) }
{
    match repeated_label(alloc, object.members.as_slice())? {
        Some(at) => Ok(Some(at)),
        None => repeated_in_members(alloc, object.members.as_slice()),
    }
}

#[cycle(repeated)]
fn repeated_in_members(alloc: Global, members: &[Member]) -> Result<Option<usize>, OutOfMemory>
    ensures { IfOk result (λ o. o ≡ spec.repeated_in_members (tree.members (map view.member_of members.now))) }
{
    for member in members {
        match repeated_in_member(alloc, member)? {
            Some(at) => return Ok(Some(at)),
            None => {}
        }
    }
    Ok(None)
}

#[cycle(repeated)]
#[tactic(auto, using(bicep_tree::proofs::ViewLemmas::enums))]
fn repeated_in_member(alloc: Global, member: &Member) -> Result<Option<usize>, OutOfMemory>
    ensures { IfOk result (λ o. o ≡ spec.repeated_in_member (view.member_of member.now)) }
{
    match member {
        Member::Property(_, value) => repeated_in_value(alloc, value),
        Member::Child(_, _) => Ok(None),
    }
}

/// The first name that is given twice in the value of a variable, an output or a property.
#[cycle(repeated)]
#[tactic(auto, using(bicep_tree::proofs::ViewLemmas::enums))]
pub(crate) fn repeated_in_value(alloc: Global, value: &Value) -> Result<Option<usize>, OutOfMemory>
    ensures { IfOk result (λ o. o ≡ spec.repeated_in_value (view.value_of value.now)) }
{
    match value {
        Value::Plain(e) => repeated_in(alloc, e),
        Value::Each(each, body) => match repeated_in_loop(alloc, each)? {
            Some(at) => Ok(Some(at)),
            None => repeated_in(alloc, body),
        },
    }
}

/// The first name that is given twice in what a loop runs over and in its names.
#[cycle(repeated)]
#[tactic(auto, using(bicep_tree::proofs::ViewLemmas::structs))]
pub(crate) fn repeated_in_loop(alloc: Global, each: &Loop) -> Result<Option<usize>, OutOfMemory>
    ensures { IfOk result (λ o. o ≡ spec.repeated_in_loop (view.loop_of each.now)) }
{
    match repeated_index(&each.names) {
        Some(at) => Ok(Some(at)),
        None => repeated_in(alloc, &each.over),
    }
}
