//! Whole numbers with or without a sign.
ghost use Rattle.std.specs.Prelude.{◌≡◌};
ghost use Rattle.bicep_tree.specs.View.{tree_of};
ghost use Rattle.parameter_rules.specs.Literals as spec;

use bicep_tree::{Expr, Literal, Prefix};

fn number_of(literal: &Literal) -> Option<i64>
    ensures { result ≡ spec.number_of literal.now }
{
    match literal {
        Literal::Number(number) => Some(*number),
        Literal::Text(_) | Literal::True | Literal::False | Literal::Null => None,
    }
}

// The number after a `-`.
fn negative(number: i64) -> i64
    ensures { result ≡ spec.negative number }
{
    if number < 0 { number } else { -number }
}

fn negated(prefix: Prefix, number: Option<i64>) -> Option<i64>
    ensures { result ≡ spec.negated prefix number }
{
    match prefix {
        Prefix::Negate => match number {
            Some(number) => Some(negative(number)),
            None => None,
        },
        Prefix::Not => None,
    }
}

// The number that an expression without a sign is.
#[tactic(auto, using(bicep_tree::proofs::ViewLemmas::enums))]
fn unsigned(e: &Expr) -> Option<i64>
    ensures { result ≡ spec.unsigned (tree_of e.now) }
{
    match e {
        Expr::Literal(_, literal) => number_of(literal),
        Expr::Name(..)
        | Expr::Interpolated(..)
        | Expr::Object(..)
        | Expr::Array(..)
        | Expr::Parentheses(..)
        | Expr::Call(..)
        | Expr::Access(..)
        | Expr::Index(..)
        | Expr::NotNull(..)
        | Expr::Prefix(..)
        | Expr::Binary(..)
        | Expr::Conditional(..) => None,
    }
}

/// The whole number that an expression is, with or without one `-`.
#[tactic(auto, using(bicep_tree::proofs::ViewLemmas::enums))]
pub(crate) fn whole(e: &Expr) -> Option<i64>
    ensures { result ≡ spec.whole_of (tree_of e.now) }
{
    match e {
        Expr::Literal(_, literal) => number_of(literal),
        Expr::Prefix(_, prefix, operand) => negated(*prefix, unsigned(operand)),
        Expr::Name(..)
        | Expr::Interpolated(..)
        | Expr::Object(..)
        | Expr::Array(..)
        | Expr::Parentheses(..)
        | Expr::Call(..)
        | Expr::Access(..)
        | Expr::Index(..)
        | Expr::NotNull(..)
        | Expr::Binary(..)
        | Expr::Conditional(..) => None,
    }
}
