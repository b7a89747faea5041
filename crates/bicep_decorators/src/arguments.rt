// The arguments of decorators.
ghost use Rattle.std.specs.Prelude.{◌≡◌, map, option_map};
ghost use Rattle.bicep_tree.specs.Tree.{trees};
ghost use Rattle.bicep_tree.specs.View.{tree_of};
ghost use Rattle.bicep_decorators.specs.Decorators.{is_text_literal, is_text, is_positive_literal, is_positive};
ghost use Rattle.bicep_decorators.specs.Decorators.{is_record, is_list, fits, takes_none, is_end, takes};

use crate::kind::DecoratorKind;
use crate::literals::{are_literals, is_literal_object, is_whole, literal_in};
use bicep_tree::{Expr, Literal};

fn is_text_literal(literal: Option<&Literal>) -> bool
    ensures { result ≡ is_text_literal (option_map (λ v. v.now) literal.entry) }
{
    match literal {
        Some(Literal::Text(_)) => true,
        Some(Literal::Number(_) | Literal::True | Literal::False | Literal::Null) => false,
        None => false,
    }
}

fn is_text(e: &Expr) -> bool
    ensures { result ≡ is_text (tree_of e.now) }
{
    is_text_literal(literal_in(e))
}

fn is_positive_literal(literal: Option<&Literal>) -> bool
    ensures { result ≡ is_positive_literal (option_map (λ v. v.now) literal.entry) }
{
    match literal {
        Some(Literal::Number(number)) => 1 <= *number,
        Some(Literal::Text(_) | Literal::True | Literal::False | Literal::Null) => false,
        None => false,
    }
}

fn is_positive(e: &Expr) -> bool
    ensures { result ≡ is_positive (tree_of e.now) }
{
    is_positive_literal(literal_in(e))
}

// Whether it is an object of literals.
#[tactic(auto, using(bicep_tree::proofs::ViewLemmas::enums))]
fn is_record(e: &Expr) -> bool
    ensures { result ≡ is_record (tree_of e.now) }
{
    match e {
        Expr::Object(object) => is_literal_object(object),
        Expr::Name(..)
        | Expr::Literal(..)
        | Expr::Interpolated(..)
        | Expr::Array(..)
        | Expr::Parentheses(..)
        | Expr::Call(..)
        | Expr::Access(..)
        | Expr::Index(..)
        | Expr::NotNull(..)
        | Expr::Prefix(..)
        | Expr::Binary(..)
        | Expr::Conditional(..) => false,
    }
}

// Whether it is an array of literals.
#[tactic(auto, using(bicep_tree::proofs::ViewLemmas::enums))]
fn is_list(e: &Expr) -> bool
    ensures { result ≡ is_list (tree_of e.now) }
{
    match e {
        Expr::Array(_, items) => are_literals(items.as_slice()),
        Expr::Name(..)
        | Expr::Literal(..)
        | Expr::Interpolated(..)
        | Expr::Object(..)
        | Expr::Parentheses(..)
        | Expr::Call(..)
        | Expr::Access(..)
        | Expr::Index(..)
        | Expr::NotNull(..)
        | Expr::Prefix(..)
        | Expr::Binary(..)
        | Expr::Conditional(..) => false,
    }
}

// Whether a decorator takes this as its only argument.
fn fits(kind: DecoratorKind, e: &Expr) -> bool
    ensures { result ≡ fits kind (tree_of e.now) }
{
    match kind {
        DecoratorKind::Description => is_text(e),
        DecoratorKind::Metadata => is_record(e),
        DecoratorKind::Allowed => is_list(e),
        DecoratorKind::Secure => false,
        DecoratorKind::MinLength
        | DecoratorKind::MaxLength
        | DecoratorKind::MinValue
        | DecoratorKind::MaxValue => is_whole(e),
        DecoratorKind::BatchSize => is_positive(e),
    }
}

fn takes_none(kind: DecoratorKind) -> bool
    ensures { result ≡ takes_none kind }
{
    match kind {
        DecoratorKind::Secure => true,
        DecoratorKind::Description
        | DecoratorKind::Metadata
        | DecoratorKind::Allowed
        | DecoratorKind::MinLength
        | DecoratorKind::MaxLength
        | DecoratorKind::MinValue
        | DecoratorKind::MaxValue
        | DecoratorKind::BatchSize => false,
    }
}

// Whether there are no arguments.
fn is_end(arguments: &[Expr]) -> bool
    ensures { result ≡ is_end (trees (map tree_of arguments.now)) }
{
    match arguments {
        [] => true,
        [_first, _rest @ ..] => false,
    }
}

/// Whether a decorator takes these arguments.
pub(crate) fn takes(kind: DecoratorKind, arguments: &[Expr]) -> bool
    ensures { result ≡ takes kind (trees (map tree_of arguments.now)) }
{
    match arguments {
        [] => takes_none(kind),
        [e, rest @ ..] => is_end(rest) && fits(kind, e),
    }
}
