//! The values that parameters may have.
ghost use Rattle.std.specs.Prelude.{◌≡◌, ◌≤◌, map, option_map, is_none, None, IfOk, ℕ, List, Option};
ghost use Rattle.arm_value.specs.Json.{Json};
ghost use Rattle.arm_value.specs.View.{json};
ghost use Rattle.template_parameters.specs.Rule.{breach};
ghost use Rattle.bicep_tree.specs.Nesting.{nesting, deepest, deepest_decorator};
ghost use Rattle.bicep_tree.specs.Tree.{trees};
ghost use Rattle.bicep_tree.specs.Tree as tree;
ghost use Rattle.bicep_tree.specs.View as view;
ghost use Rattle.parameter_rules.specs.Metadata as metadata;
ghost use Rattle.parameter_rules.specs.Rules as spec;

use crate::descriptions::metadata;
use crate::kinds::arguments_of;
use crate::literals::{items_of, lacks};
use crate::numbers::whole;
use arm_value::{Items, OutOfMemory, Text, Value};
use bicep_decorators::DecoratorKind;
use bicep_tree::{Decorator, Expr, TypeName};
use std::alloc::Global;
use template_parts::{Bounds, Parameter, ValueType};

// The number that is the first argument.
fn first_number(arguments: &[Expr]) -> Option<i64>
    ensures { result ≡ spec.first_number (trees (map view.tree_of arguments.now)) }
{
    match arguments {
        [] => None,
        [first, ..] => whole(first),
    }
}

fn number_of(kind: DecoratorKind, decorators: &[Decorator]) -> Option<i64>
    ensures { result ≡ spec.number_of kind (tree.decorators (map view.decorator_of decorators.now)) }
{
    match arguments_of(kind, decorators) {
        Some(arguments) => first_number(arguments),
        None => None,
    }
}

fn bounds_of(decorators: &[Decorator]) -> Bounds
    ensures { result ≡ spec.bounds_of (tree.decorators (map view.decorator_of decorators.now)) }
{
    Bounds {
        min_value: number_of(DecoratorKind::MinValue, decorators),
        max_value: number_of(DecoratorKind::MaxValue, decorators),
        min_length: number_of(DecoratorKind::MinLength, decorators),
        max_length: number_of(DecoratorKind::MaxLength, decorators),
    }
}

// The values in an array of literals.
#[tactic(auto, using(bicep_tree::proofs::ViewLemmas::enums))]
fn values_in(alloc: Global, e: &Expr) -> Result<Items, OutOfMemory>
    requires { nesting (view.tree_of e.now) ≤ 119 }
    ensures { IfOk result (λ js. js ≡ spec.values_in (view.tree_of e.now)) }
{
    match e {
        Expr::Array(_, items) => items_of(alloc, items.as_slice()),
        Expr::Name(..)
        | Expr::Literal(..)
        | Expr::Interpolated(..)
        | Expr::Object(..)
        | Expr::Parentheses(..)
        | Expr::Call(..)
        | Expr::Access(..)
        | Expr::Index(..)
        | Expr::NotNull(..)
        | Expr::Prefix(..)
        | Expr::Binary(..)
        | Expr::Conditional(..) => Ok(Items::new()),
    }
}

fn first_values(alloc: Global, arguments: &[Expr]) -> Result<Items, OutOfMemory>
    requires { deepest (trees (map view.tree_of arguments.now)) ≤ 119 }
    ensures { IfOk result (λ js. js ≡ spec.first_values (trees (map view.tree_of arguments.now))) }
{
    match arguments {
        [] => Ok(Items::new()),
        [first, ..] => values_in(alloc, first),
    }
}

// The values that are allowed, where not all are.
fn allowed_of(alloc: Global, decorators: &[Decorator]) -> Result<Option<Items>, OutOfMemory>
    requires { deepest_decorator (tree.decorators (map view.decorator_of decorators.now)) ≤ 119 }
    ensures { IfOk result (λ o. o ≡ spec.allowed_of (tree.decorators (map view.decorator_of decorators.now))) }
{
    match arguments_of(DecoratorKind::Allowed, decorators) {
        Some(arguments) => Ok(Some(first_values(alloc, arguments)?)),
        None => Ok(None),
    }
}

fn plain_kind(kind: TypeName) -> ValueType
    ensures { result ≡ spec.plain_kind kind }
{
    match kind {
        TypeName::String => ValueType::String,
        TypeName::Int => ValueType::Int,
        TypeName::Bool => ValueType::Bool,
        TypeName::Object => ValueType::Object,
        TypeName::Array => ValueType::Array,
    }
}

fn secret_kind(kind: TypeName) -> ValueType
    ensures { result ≡ spec.secret_kind kind }
{
    match kind {
        TypeName::String => ValueType::SecureString,
        TypeName::Int => ValueType::Int,
        TypeName::Bool => ValueType::Bool,
        TypeName::Object => ValueType::SecureObject,
        TypeName::Array => ValueType::Array,
    }
}

// The type in a template.
fn kind_of(kind: TypeName, decorators: &[Decorator]) -> ValueType
    ensures { result
        ≡ spec.kind_by (spec.is_secret (tree.decorators (map view.decorator_of decorators.now))) kind }
{
    match arguments_of(DecoratorKind::Secure, decorators) {
        Some(_) => secret_kind(kind),
        None => plain_kind(kind),
    }
}

// The parameter without a default that has these parts.
fn joined(
    name: Result<Text, OutOfMemory>,
    kind: ValueType,
    bounds: Bounds,
    allowed_values: Result<Option<Items>, OutOfMemory>,
    metadata: Option<Value>,
) -> Result<Parameter, OutOfMemory>
    ensures name { (n : List ℕ) → IfOk name (λ t. t ≡ n) → IfOk result (λ q. q.name ≡ n) }
    ensures allowed { (o : Option (List Json)) → IfOk allowed_values (λ a. a ≡ o)
        → IfOk result (λ q. q.allowed_values ≡ o) }
    ensures metadata { IfOk result (λ q. q.metadata ≡ metadata) }
    ensures rest { IfOk result (λ q. (q.kind ≡ kind) × (q.bounds ≡ bounds) × (q.default_value ≡ None)) }
{
    match allowed_values {
        Ok(allowed_values) => match name {
            Ok(name) => Ok(Parameter {
                name,
                kind,
                default_value: None,
                allowed_values,
                bounds,
                metadata,
            }),
            Err(_) => lacks((allowed_values, metadata)),
        },
        Err(_) => lacks((name, metadata)),
    }
}

/// The parameter of a template for one of that name and type and with these decorators, without its default.
///
/// # Errors
///
/// `OutOfMemory`.
pub fn parameter(
    alloc: Global,
    name: &Text,
    kind: TypeName,
    decorators: &[Decorator],
) -> Result<Parameter, OutOfMemory>
    requires { deepest_decorator (tree.decorators (map view.decorator_of decorators.now)) ≤ 119 }
    ensures name { IfOk result (λ q. q.name ≡ name.now) }
    ensures default { IfOk result (λ q. q.default_value ≡ None) }
    ensures rule { IfOk result (λ q. (j : Json) → is_none (breach q j)
        ≡ spec.accepts kind (tree.decorators (map view.decorator_of decorators.now)) j) }
    ensures metadata { IfOk result (λ q. option_map json q.metadata
        ≡ metadata.metadata_of (tree.decorators (map view.decorator_of decorators.now))) }
{
    let metadata = metadata(alloc, decorators)?;
    joined(
        name.copy(alloc),
        kind_of(kind, decorators),
        bounds_of(decorators),
        allowed_of(alloc, decorators),
        metadata,
    )
}
