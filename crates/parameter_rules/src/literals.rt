//! The values of literals.
ghost use Rattle.std.specs.Prelude.{◌≡◌, ◌≤◌, ◌++◌, ◌∷◌, [], map, IfOk};
ghost use Rattle.arm_value.specs.Json.{row, nesting as json_nesting, put_each};
ghost use Rattle.arm_value.specs.View.{json};
ghost use Rattle.bicep_tree.specs.Nesting.{nesting, deepest, object_nesting, deepest_member, member_nesting};
ghost use Rattle.bicep_tree.specs.Nesting.{value_nesting};
ghost use Rattle.bicep_tree.specs.Tree.{trees, members};
ghost use Rattle.bicep_tree.specs.View as view;
ghost use Rattle.parameter_rules.specs.Literals as spec;

use crate::numbers::whole;
use arm_env::objects::with_value;
use arm_value::{Fields, Items, OutOfMemory, Text, Value};
use bicep_tree::{Expr, Label, Literal, Member, Object};
use std::alloc::{AllocError, Global};

/// Out of memory; what was made is dropped.
pub(crate) fn lacks<T: Drop, R: Drop>(_made: T) -> Result<R, OutOfMemory>
    ensures { IfOk result (λ _. ⊥) }
{
    Err(AllocError)
}

fn constant(alloc: Global, literal: &Literal) -> Result<Value, OutOfMemory>
    ensures { IfOk result (λ v. json v ≡ spec.constant literal.now) }
{
    match literal {
        Literal::Number(number) => Ok(Value::Int(*number)),
        Literal::Text(text) => Ok(Value::Text(text.copy(alloc)?)),
        Literal::True => Ok(Value::Bool(true)),
        Literal::False => Ok(Value::Bool(false)),
        Literal::Null => Ok(Value::Null),
    }
}

fn int_or_null(number: Option<i64>) -> Value
    ensures { json result ≡ spec.int_or_null number }
{
    match number {
        Some(number) => Value::Int(number),
        None => Value::Null,
    }
}

fn name_of(label: &Label) -> &Text
    ensures { result.now ≡ spec.name_of label.now }
{
    match label {
        Label::Name(name) => &name.text,
        Label::Quoted(quoted) => &quoted.text,
    }
}

// The items with one more at their end.
fn with_item(alloc: Global, items: Items, value: Value) -> Result<Items, OutOfMemory>
    requires { json_nesting (json value) ≤ 119 }
    ensures { IfOk result (λ js. js ≡ items ++ json value ∷ []) }
{
    let mut items = items;
    match items.push(alloc, value) {
        Ok(()) => Ok(items),
        Err(_) => lacks(items),
    }
}

/// The value of a literal.
#[cycle(values)]
#[tactic(auto, using(bicep_tree::proofs::ViewLemmas::enums))]
pub(crate) fn value(alloc: Global, e: &Expr) -> Result<Value, OutOfMemory>
    requires { nesting (view.tree_of e.now) ≤ 119 }
    ensures { IfOk result (λ v. json v ≡ spec.value_of (view.tree_of e.now)) }
{
    match e {
        Expr::Literal(_, literal) => constant(alloc, literal),
        Expr::Array(_, items) => Ok(Value::Array(items_of(alloc, items.as_slice())?)),
        Expr::Object(object) => Ok(Value::Object(fields_of(alloc, object)?)),
        Expr::Prefix(_, _, _) => Ok(int_or_null(whole(e))),
        Expr::Name(..)
        | Expr::Interpolated(..)
        | Expr::Parentheses(..)
        | Expr::Call(..)
        | Expr::Access(..)
        | Expr::Index(..)
        | Expr::NotNull(..)
        | Expr::Binary(..)
        | Expr::Conditional(..) => Ok(Value::Null),
    }
}

/// The values of literals.
#[cycle(values)]
pub(crate) fn items_of(alloc: Global, exprs: &[Expr]) -> Result<Items, OutOfMemory>
    requires { deepest (trees (map view.tree_of exprs.now)) ≤ 119 }
    ensures { IfOk result (λ js. row js ≡ spec.row_of (trees (map view.tree_of exprs.now))) }
{
    let mut found = Items::new();
    for e in exprs {
        match value(alloc, e) {
            Ok(value) => found = with_item(alloc, found, value)?,
            Err(_) => return lacks(found),
        }
    }
    Ok(found)
}

/// The members of an object of literals.
#[cycle(values)]
#[tactic(auto, using(bicep_tree::proofs::ViewLemmas::structs))]
pub(crate) fn fields_of(alloc: Global, object: &Object) -> Result<Fields, OutOfMemory>
    requires { object_nesting (view.object_of object.now) ≤ 120 }
    ensures { IfOk result (λ ms. ms ≡ put_each [] (spec.members_of (view.object_of object.now))) }
{
    each_of(alloc, object.members.as_slice())
}

#[cycle(values)]
fn each_of(alloc: Global, inner: &[Member]) -> Result<Fields, OutOfMemory>
    requires { deepest_member (members (map view.member_of inner.now)) ≤ 119 }
    ensures { IfOk result (λ ms. ms ≡ put_each [] (spec.each_of (members (map view.member_of inner.now)))) }
{
    let mut found = Fields::new();
    for member in inner {
        found = with_member(alloc, found, member)?;
    }
    Ok(found)
}

// The members with that of a literal.
#[cycle(values)]
#[tactic(auto, using(bicep_tree::proofs::ViewLemmas::enums))]
fn with_member(alloc: Global, found: Fields, inner: &Member) -> Result<Fields, OutOfMemory>
    requires { member_nesting (view.member_of inner.now) ≤ 119 }
    ensures { IfOk result (λ ms. ms ≡ put_each found (spec.member_of (view.member_of inner.now))) }
{
    match inner {
        Member::Property(label, plain) => match plain_value(alloc, plain) {
            Ok(value) => with_value(alloc, found, name_of(label).as_str(), value),
            Err(_) => lacks(found),
        },
        Member::Child(_, _) => Ok(found),
    }
}

#[cycle(values)]
#[tactic(auto, using(bicep_tree::proofs::ViewLemmas::enums))]
fn plain_value(alloc: Global, plain: &bicep_tree::Value) -> Result<Value, OutOfMemory>
    requires { value_nesting (view.value_of plain.now) ≤ 119 }
    ensures { IfOk result (λ v. json v ≡ spec.plain_value (view.value_of plain.now)) }
{
    match plain {
        bicep_tree::Value::Plain(e) => value(alloc, e),
        bicep_tree::Value::Each(_, _) => Ok(Value::Null),
    }
}
