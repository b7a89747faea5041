//! What operators become.
ghost use Rattle.std.specs.Prelude.{◌≡◌, codes, length};
ghost use Rattle.arm_expr.specs.Tree.{Tree, call};
ghost use Rattle.emitted_parts.specs.Emitted.{binary_of, prefix_of, not_of, small, two, three};
ghost use Rattle.emitted_parts.specs.Words.{operator_word, is_lowered, is_negated, compared};
ghost use Rattle.emitted_sizes.specs.Extent.{IsOf};

use crate::calls::{call_one, call_three, call_two};
use crate::extent::Extent;
use crate::literals::int;
use bicep_tree::{Operator, Prefix};

// How many characters the name of the function has that an operator is written with.
fn word_length(operator: Operator) -> u64
    ensures { result ≡ length (operator_word operator) }
{
    match operator {
        Operator::Coalesce => 8,
        Operator::Or => 2,
        Operator::And => 3,
        Operator::Equals
        | Operator::NotEquals
        | Operator::EqualsInsensitive
        | Operator::NotEqualsInsensitive => 6,
        Operator::Less => 4,
        Operator::LessOrEqual => 12,
        Operator::Greater => 7,
        Operator::GreaterOrEqual => 15,
        Operator::Add | Operator::Subtract | Operator::Multiply => 3,
        Operator::Divide | Operator::Remainder => 3,
    }
}

// Whether an operator compares texts whatever the case of their letters.
fn lowers(operator: Operator) -> bool
    ensures { result ≡ is_lowered operator }
{
    operator == Operator::EqualsInsensitive || operator == Operator::NotEqualsInsensitive
}

// Whether an operator is `not` of another.
fn negates(operator: Operator) -> bool
    ensures { result ≡ is_negated operator }
{
    operator == Operator::NotEquals || operator == Operator::NotEqualsInsensitive
}

fn negated(given: Extent) -> Extent
    ensures { (a : Tree) → IsOf a given → IsOf (not_of a) result }
{
    call_one(3, given)
}

fn lowered(given: Extent) -> Extent
    ensures { (a : Tree) → IsOf a given → IsOf (small a) result }
{
    call_one(7, given)
}

fn applied(operator: Operator, left: Extent, right: Extent) -> Extent
    ensures { (a b : Tree) → IsOf a left → IsOf b right → IsOf (call (operator_word operator) (two a b)) result }
{
    call_two(word_length(operator), left, right)
}

fn applied_to_operands(operator: Operator, left: Extent, right: Extent) -> Extent
    ensures { (a b : Tree) → IsOf a left → IsOf b right → IsOf (compared operator a b) result }
{
    if lowers(operator) {
        applied(operator, lowered(left), lowered(right))
    } else {
        applied(operator, left, right)
    }
}

/// What an operator between two operands becomes.
pub fn binary(operator: Operator, left: Extent, right: Extent) -> Extent
    ensures { (a b : Tree) → IsOf a left → IsOf b right → IsOf (binary_of operator a b) result }
{
    let compared = applied_to_operands(operator, left, right);
    if negates(operator) {
        negated(compared)
    } else {
        compared
    }
}

/// What an operator before its operand becomes.
pub fn prefixed(prefix: Prefix, given: Extent) -> Extent
    ensures { (a : Tree) → IsOf a given → IsOf (prefix_of prefix a) result }
{
    match prefix {
        Prefix::Not => negated(given),
        Prefix::Negate => call_two(3, int(0), given),
    }
}

/// What `c ? a : b` becomes.
pub fn conditional(condition: Extent, yes: Extent, no: Extent) -> Extent
    ensures { (c a b : Tree) → IsOf c condition → IsOf a yes → IsOf b no
        → IsOf (call (codes "if") (three c a b)) result }
{
    call_three(2, condition, yes, no)
}
