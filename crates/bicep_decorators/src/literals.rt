// Literals.
ghost use Rattle.std.specs.Prelude.{◌≡◌, map, option_map};
ghost use Rattle.bicep_tree.specs.Tree.{trees, members};
ghost use Rattle.bicep_tree.specs.View.{tree_of, object_of, member_of, value_of};
ghost use Rattle.bicep_decorators.specs.Literals.{literal_in, number_literal, is_number, is_negated, is_whole};
ghost use Rattle.bicep_decorators.specs.Literals.{is_literal, are_literals, is_literal_object, is_literal_member};
ghost use Rattle.bicep_decorators.specs.Literals.{members_are_literals, is_literal_value};

use bicep_tree::{Expr, Literal, Member, Object, Prefix, Value};

/// The literal token that an expression is.
#[tactic(auto, using(bicep_tree::proofs::ViewLemmas::enums))]
pub(crate) fn literal_in(e: &Expr) -> Option<&Literal>
    ensures { option_map (λ v. v.now) result ≡ literal_in (tree_of e.now) }
{
    match e {
        Expr::Literal(_, literal) => Some(literal),
        Expr::Name(..)
        | Expr::Interpolated(..)
        | Expr::Object(..)
        | Expr::Array(..)
        | Expr::Parentheses(..)
        | Expr::Call(..)
        | Expr::Access(..)
        | Expr::Index(..)
        | Expr::NotNull(..)
        | Expr::Prefix(..)
        | Expr::Binary(..)
        | Expr::Conditional(..) => None,
    }
}

// Whether it is a number.
fn number_literal(literal: Option<&Literal>) -> bool
    ensures { result ≡ number_literal (option_map (λ v. v.now) literal.entry) }
{
    match literal {
        Some(Literal::Number(_)) => true,
        Some(Literal::Text(_) | Literal::True | Literal::False | Literal::Null) => false,
        None => false,
    }
}

// Whether the expression is a whole number without a sign.
fn is_number(e: &Expr) -> bool
    ensures { result ≡ is_number (tree_of e.now) }
{
    number_literal(literal_in(e))
}

// Whether the operand makes a negative number.
fn is_negated(prefix: Prefix, e: &Expr) -> bool
    ensures { result ≡ is_negated prefix (tree_of e.now) }
{
    match prefix {
        Prefix::Negate => is_number(e),
        Prefix::Not => false,
    }
}

/// Whether the expression is a whole number with or without one `-`.
#[tactic(auto, using(bicep_tree::proofs::ViewLemmas::enums))]
pub(crate) fn is_whole(e: &Expr) -> bool
    ensures { result ≡ is_whole (tree_of e.now) }
{
    match e {
        Expr::Literal(_, literal) => number_literal(Some(literal)),
        Expr::Prefix(_, prefix, operand) => is_negated(*prefix, operand),
        Expr::Name(..)
        | Expr::Interpolated(..)
        | Expr::Object(..)
        | Expr::Array(..)
        | Expr::Parentheses(..)
        | Expr::Call(..)
        | Expr::Access(..)
        | Expr::Index(..)
        | Expr::NotNull(..)
        | Expr::Binary(..)
        | Expr::Conditional(..) => false,
    }
}

/// Whether the expression is a literal: a text without interpolation, a whole number with or without one `-`, `true`,
/// `false`, `null`, or an object or an array of literals.
#[cycle(literal)]
#[tactic(auto, using(bicep_tree::proofs::ViewLemmas::enums))]
pub fn is_literal(e: &Expr) -> bool
    ensures { result ≡ is_literal (tree_of e.now) }
{
    match e {
        Expr::Literal(..) => true,
        Expr::Array(_, items) => are_literals(items.as_slice()),
        Expr::Object(object) => is_literal_object(object),
        Expr::Prefix(_, prefix, operand) => is_negated(*prefix, operand),
        Expr::Name(..)
        | Expr::Interpolated(..)
        | Expr::Parentheses(..)
        | Expr::Call(..)
        | Expr::Access(..)
        | Expr::Index(..)
        | Expr::NotNull(..)
        | Expr::Binary(..)
        | Expr::Conditional(..) => false,
    }
}

/// Whether all of these are literals.
#[cycle(literal)]
pub(crate) fn are_literals(items: &[Expr]) -> bool
    ensures { result ≡ are_literals (trees (map tree_of items.now)) }
{
    for item in items {
        if !is_literal(item) {
            return false;
        }
    }
    true
}

/// Whether all members of the object are literals.
#[cycle(literal)]
#[tactic(auto, using(bicep_tree::proofs::ViewLemmas::structs))]
pub(crate) fn is_literal_object(object: &Object) -> bool
    ensures { result ≡ is_literal_object (object_of object.now) }
{
    members_are_literals(object.members.as_slice())
}

#[cycle(literal)]
fn members_are_literals(inner: &[Member]) -> bool
    ensures { result ≡ members_are_literals (members (map member_of inner.now)) }
{
    for member in inner {
        if !is_literal_member(member) {
            return false;
        }
    }
    true
}

// Whether the member is a property whose value is a literal.
#[cycle(literal)]
#[tactic(auto, using(bicep_tree::proofs::ViewLemmas::enums))]
fn is_literal_member(member: &Member) -> bool
    ensures { result ≡ is_literal_member (member_of member.now) }
{
    match member {
        Member::Property(_, value) => is_literal_value(value),
        Member::Child(..) => false,
    }
}

#[cycle(literal)]
#[tactic(auto, using(bicep_tree::proofs::ViewLemmas::enums))]
fn is_literal_value(value: &Value) -> bool
    ensures { result ≡ is_literal_value (value_of value.now) }
{
    match value {
        Value::Plain(e) => is_literal(e),
        Value::Each(..) => false,
    }
}
