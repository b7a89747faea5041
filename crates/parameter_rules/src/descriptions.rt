//! Metadata.
ghost use Rattle.std.specs.Prelude.{◌≡◌, ◌≤◌, map, option_map, Some, IfOk};
ghost use Rattle.arm_value.specs.View.{json};
ghost use Rattle.bicep_decorators.specs.Literals.{literal_in};
ghost use Rattle.bicep_tree.specs.Nesting.{nesting, deepest, deepest_decorator};
ghost use Rattle.bicep_tree.specs.Tree.{trees};
ghost use Rattle.bicep_tree.specs.Tree as tree;
ghost use Rattle.bicep_tree.specs.View as view;
ghost use Rattle.parameter_rules.specs.Metadata as spec;

use crate::kinds::arguments_of;
use crate::literals::fields_of;
use arm_env::objects::with_copy;
use arm_value::{Fields, OutOfMemory, Text, Value};
use bicep_decorators::DecoratorKind;
use bicep_tree::{Decorator, Expr, Literal};
use std::alloc::Global;

fn text_in(literal: &Literal) -> Option<&Text>
    ensures { option_map (λ t. t.now) result ≡ spec.text_in (Some literal.now) }
{
    match literal {
        Literal::Text(text) => Some(text),
        Literal::Number(_) | Literal::True | Literal::False | Literal::Null => None,
    }
}

#[tactic(auto, using(bicep_tree::proofs::ViewLemmas::enums))]
fn text_of(e: &Expr) -> Option<&Text>
    ensures { option_map (λ t. t.now) result ≡ spec.text_in (literal_in (view.tree_of e.now)) }
{
    match e {
        Expr::Literal(_, literal) => text_in(literal),
        Expr::Name(..)
        | Expr::Interpolated(..)
        | Expr::Object(..)
        | Expr::Array(..)
        | Expr::Parentheses(..)
        | Expr::Call(..)
        | Expr::Access(..)
        | Expr::Index(..)
        | Expr::NotNull(..)
        | Expr::Prefix(..)
        | Expr::Binary(..)
        | Expr::Conditional(..) => None,
    }
}

fn first_text(arguments: &[Expr]) -> Option<&Text>
    ensures { option_map (λ t. t.now) result ≡ spec.first_text (trees (map view.tree_of arguments.now)) }
{
    match arguments {
        [] => None,
        [first, ..] => text_of(first),
    }
}

fn description_of(decorators: &[Decorator]) -> Option<&Text>
    ensures { option_map (λ t. t.now) result
        ≡ spec.description_of (tree.decorators (map view.decorator_of decorators.now)) }
{
    match arguments_of(DecoratorKind::Description, decorators) {
        Some(arguments) => first_text(arguments),
        None => None,
    }
}

#[tactic(auto, using(bicep_tree::proofs::ViewLemmas::enums))]
fn members_in(alloc: Global, e: &Expr) -> Result<Fields, OutOfMemory>
    requires { nesting (view.tree_of e.now) ≤ 119 }
    ensures { IfOk result (λ ms. ms ≡ spec.members_in (view.tree_of e.now)) }
{
    match e {
        Expr::Object(object) => fields_of(alloc, object),
        Expr::Name(..)
        | Expr::Literal(..)
        | Expr::Interpolated(..)
        | Expr::Array(..)
        | Expr::Parentheses(..)
        | Expr::Call(..)
        | Expr::Access(..)
        | Expr::Index(..)
        | Expr::NotNull(..)
        | Expr::Prefix(..)
        | Expr::Binary(..)
        | Expr::Conditional(..) => Ok(Fields::new()),
    }
}

fn first_members(alloc: Global, arguments: &[Expr]) -> Result<Fields, OutOfMemory>
    requires { deepest (trees (map view.tree_of arguments.now)) ≤ 119 }
    ensures { IfOk result (λ ms. ms ≡ spec.first_members (trees (map view.tree_of arguments.now))) }
{
    match arguments {
        [] => Ok(Fields::new()),
        [first, ..] => members_in(alloc, first),
    }
}

// The members of the metadata that is written as such.
fn members_of(alloc: Global, decorators: &[Decorator]) -> Result<Option<Fields>, OutOfMemory>
    requires { deepest_decorator (tree.decorators (map view.decorator_of decorators.now)) ≤ 119 }
    ensures { IfOk result (λ o. o ≡ spec.written (tree.decorators (map view.decorator_of decorators.now))) }
{
    match arguments_of(DecoratorKind::Metadata, decorators) {
        Some(arguments) => Ok(Some(first_members(alloc, arguments)?)),
        None => Ok(None),
    }
}

fn or_none(members: Option<Fields>) -> Fields
    ensures { result ≡ spec.or_none members }
{
    match members {
        Some(members) => members,
        None => Fields::new(),
    }
}

fn plain(members: Option<Fields>) -> Option<Value>
    ensures { option_map json result ≡ spec.plain members }
{
    match members {
        Some(members) => Some(Value::Object(members)),
        None => None,
    }
}

// The metadata of these members, and of a description among them.
fn described(
    alloc: Global,
    members: Option<Fields>,
    description: Option<&Text>,
) -> Result<Option<Value>, OutOfMemory>
    ensures { IfOk result (λ o. option_map json o
        ≡ spec.metadata_by (option_map (λ t. t.now) description.entry) members) }
{
    match description {
        Some(text) => Ok(Some(Value::Object(with_copy(
            alloc,
            or_none(members),
            "description",
            text,
        )?))),
        None => Ok(plain(members)),
    }
}

/// The metadata that decorators give: that of `@metadata`, with the text of `@description` as its member
/// `description`.
///
/// # Errors
///
/// `OutOfMemory`.
pub fn metadata(alloc: Global, decorators: &[Decorator]) -> Result<Option<Value>, OutOfMemory>
    requires { deepest_decorator (tree.decorators (map view.decorator_of decorators.now)) ≤ 119 }
    ensures { IfOk result (λ o. option_map json o
        ≡ spec.metadata_of (tree.decorators (map view.decorator_of decorators.now))) }
{
    let members = members_of(alloc, decorators)?;
    described(alloc, members, description_of(decorators))
}
