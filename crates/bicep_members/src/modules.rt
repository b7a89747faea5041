// Names that are given twice in a module.
ghost use Rattle.std.specs.Prelude.{◌≡◌, IfOk, bytes_eq, map};
ghost use Rattle.bicep_tree.specs.Symbol.{label_text};
ghost use Rattle.bicep_tree.specs.Tree as tree;
ghost use Rattle.bicep_tree.specs.View as view;
ghost use Rattle.bicep_members.specs.Parts as spec;
ghost use Rattle.bicep_tree.specs.Declarations.{body_members};
ghost use Rattle.bicep_tree.specs.Declarations.{object_members};

use crate::labels::repeated_folded;
use crate::resources::repeated_in_body;
use arm_value::OutOfMemory;
use bicep_tree::{Body, Expr, Label, Member, Object, Value, is_word};
use std::alloc::Global;

fn is_params(label: &Label) -> bool
    ensures { result ≡ bytes_eq (label_text label.now) spec.params_word }
{
    is_word(label.text().as_str(), "params")
}

#[tactic(auto, using(bicep_tree::proofs::ViewLemmas::structs))]
fn members_of(object: &Object) -> &[Member]
    ensures { tree.members (map view.member_of result.now) ≡ object_members (view.object_of object.now) }
{
    object.members.as_slice()
}

#[tactic(auto, using(bicep_tree::proofs::ViewLemmas::enums))]
fn body_members(body: &Body) -> &[Member]
    ensures { tree.members (map view.member_of result.now) ≡ body_members (view.body_of body.now) }
{
    match body {
        Body::Plain(object)
        | Body::If(_, _, object)
        | Body::Each(_, object)
        | Body::EachIf(_, _, _, object) => members_of(object),
    }
}

#[tactic(auto, using(bicep_tree::proofs::ViewLemmas::structs))]
fn repeated_argument_of(alloc: Global, object: &Object) -> Result<Option<usize>, OutOfMemory>
    ensures { IfOk result (λ o. o ≡ spec.repeated_argument_of (view.object_of object.now)) }
{
    repeated_folded(alloc, object.members.as_slice())
}

#[tactic(auto, using(bicep_tree::proofs::ViewLemmas::enums))]
fn repeated_argument(alloc: Global, e: &Expr) -> Result<Option<usize>, OutOfMemory>
    ensures { IfOk result (λ o. o ≡ spec.repeated_argument (view.tree_of e.now)) }
{
    match e {
        Expr::Object(object) => repeated_argument_of(alloc, object),
        Expr::Parentheses(_, inner) => repeated_argument(alloc, inner),
        Expr::Name(..)
        | Expr::Literal(..)
        | Expr::Interpolated(..)
        | Expr::Array(..)
        | Expr::Call(..)
        | Expr::Access(..)
        | Expr::Index(..)
        | Expr::NotNull(..)
        | Expr::Prefix(..)
        | Expr::Binary(..)
        | Expr::Conditional(..) => Ok(None),
    }
}

#[tactic(auto, using(bicep_tree::proofs::ViewLemmas::enums))]
fn repeated_argument_in(alloc: Global, value: &Value) -> Result<Option<usize>, OutOfMemory>
    ensures { IfOk result (λ o. o ≡ spec.repeated_argument_in (view.value_of value.now)) }
{
    match value {
        Value::Plain(e) => repeated_argument(alloc, e),
        Value::Each(_, _) => Ok(None),
    }
}

#[tactic(auto, using(bicep_tree::proofs::ViewLemmas::enums))]
fn repeated_in_params(alloc: Global, member: &Member) -> Result<Option<usize>, OutOfMemory>
    ensures { IfOk result (λ o. o ≡ spec.repeated_in_params (view.member_of member.now)) }
{
    match member {
        Member::Property(label, value) => {
            if is_params(label) {
                return repeated_argument_in(alloc, value);
            }
            Ok(None)
        }
        Member::Child(_, _) => Ok(None),
    }
}

fn repeated_in_all_params(alloc: Global, members: &[Member]) -> Result<Option<usize>, OutOfMemory>
    ensures { IfOk result (λ o. o ≡ spec.repeated_in_all_params (tree.members (map view.member_of members.now))) }
{
    for member in members {
        match repeated_in_params(alloc, member)? {
            Some(at) => return Ok(Some(at)),
            None => {}
        }
    }
    Ok(None)
}

/// The first name that is given twice in a module.
pub(crate) fn repeated_in_module(alloc: Global, body: &Body) -> Result<Option<usize>, OutOfMemory>
    ensures { IfOk result (λ o. o ≡ spec.repeated_in_module (view.body_of body.now)) }
{
    match repeated_in_body(alloc, body)? {
        Some(at) => Ok(Some(at)),
        None => repeated_in_all_params(alloc, body_members(body)),
    }
}
