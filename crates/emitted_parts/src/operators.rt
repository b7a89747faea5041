//! What operators become.
ghost use Rattle.std.specs.Prelude.{◌≡◌, codes};
ghost use Rattle.arm_expr.specs.Tree.{Tree, call};
ghost use Rattle.bicep_emission.specs.Emitted.{binary_of, prefix_of, not_of, small, two, three};
ghost use Rattle.emitted_parts.specs.Built.{Is};
ghost use Rattle.emitted_parts.specs.Words.{operator_word, is_lowered, is_negated, compared};

use crate::calls::{call_one, call_three, call_two};
use arm_expr::Expr;
use arm_value::OutOfMemory;
use bicep_tree::{Operator, Prefix};
use std::alloc::Global;

// The function of two arguments that an operator is written with.
fn word(operator: Operator) -> &'static str
    ensures { result.now ≡ operator_word operator }
{
    match operator {
        Operator::Coalesce => "coalesce",
        Operator::Or => "or",
        Operator::And => "and",
        Operator::Equals
        | Operator::NotEquals
        | Operator::EqualsInsensitive
        | Operator::NotEqualsInsensitive => "equals",
        Operator::Less => "less",
        Operator::LessOrEqual => "lessOrEquals",
        Operator::Greater => "greater",
        Operator::GreaterOrEqual => "greaterOrEquals",
        Operator::Add => "add",
        Operator::Subtract => "sub",
        Operator::Multiply => "mul",
        Operator::Divide => "div",
        Operator::Remainder => "mod",
    }
}

// Whether an operator compares texts whatever the case of their letters.
fn lowers(operator: Operator) -> bool
    ensures { result ≡ is_lowered operator }
{
    operator == Operator::EqualsInsensitive || operator == Operator::NotEqualsInsensitive
}

// Whether an operator is `not` of another.
fn negates(operator: Operator) -> bool
    ensures { result ≡ is_negated operator }
{
    operator == Operator::NotEquals || operator == Operator::NotEqualsInsensitive
}

fn negated(alloc: Global, given: Result<Expr, OutOfMemory>) -> Result<Expr, OutOfMemory>
    ensures { (a : Tree) → Is a given → Is (not_of a) result }
{
    call_one(alloc, "not", given)
}

fn lowered(alloc: Global, given: Result<Expr, OutOfMemory>) -> Result<Expr, OutOfMemory>
    ensures { (a : Tree) → Is a given → Is (small a) result }
{
    call_one(alloc, "toLower", given)
}

// The function of an operator, of its operands as they are.
fn applied(
    alloc: Global,
    operator: Operator,
    left: Result<Expr, OutOfMemory>,
    right: Result<Expr, OutOfMemory>,
) -> Result<Expr, OutOfMemory>
    ensures { (a b : Tree) → Is a left → Is b right → Is (call (operator_word operator) (two a b)) result }
{
    call_two(alloc, word(operator), left, right)
}

fn applied_to_operands(
    alloc: Global,
    operator: Operator,
    left: Result<Expr, OutOfMemory>,
    right: Result<Expr, OutOfMemory>,
) -> Result<Expr, OutOfMemory>
    ensures { (a b : Tree) → Is a left → Is b right → Is (compared operator a b) result }
{
    if lowers(operator) {
        applied(alloc, operator, lowered(alloc, left), lowered(alloc, right))
    } else {
        applied(alloc, operator, left, right)
    }
}

/// What an operator between two operands becomes.
pub fn binary(
    alloc: Global,
    operator: Operator,
    left: Result<Expr, OutOfMemory>,
    right: Result<Expr, OutOfMemory>,
) -> Result<Expr, OutOfMemory>
    ensures { (a b : Tree) → Is a left → Is b right → Is (binary_of operator a b) result }
{
    let compared = applied_to_operands(alloc, operator, left, right);
    if negates(operator) {
        negated(alloc, compared)
    } else {
        compared
    }
}

/// What an operator before its operand becomes.
pub fn prefixed(
    alloc: Global,
    prefix: Prefix,
    given: Result<Expr, OutOfMemory>,
) -> Result<Expr, OutOfMemory>
    ensures { (a : Tree) → Is a given → Is (prefix_of prefix a) result }
{
    match prefix {
        Prefix::Not => negated(alloc, given),
        Prefix::Negate => call_two(alloc, "sub", Ok(Expr::Int(0)), given),
    }
}

/// What `c ? a : b` becomes.
pub fn conditional(
    alloc: Global,
    condition: Result<Expr, OutOfMemory>,
    yes: Result<Expr, OutOfMemory>,
    no: Result<Expr, OutOfMemory>,
) -> Result<Expr, OutOfMemory>
    ensures { (c a b : Tree) → Is c condition → Is a yes → Is b no
        → Is (call (codes "if") (three c a b)) result }
{
    call_three(alloc, "if", condition, yes, no)
}
