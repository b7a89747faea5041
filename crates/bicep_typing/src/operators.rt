// The types of what operators make of values.
ghost use Rattle.std.specs.Prelude.{◌≡◌};
ghost use Rattle.bicep_typing.specs.Operators as spec;

use crate::typed::{Typed, always, before, wanted};
use bicep_resolved::Selector;
use bicep_signatures::{Kinds, ValueType};
use bicep_tree::{Indexing, Literal, Operator, Prefix};

#[tactic(auto, unfolding(crate::specs::Operators::literal_type))]
pub(crate) fn literal_type(literal: &Literal) -> ValueType
    ensures { result ≡ spec.literal_type literal.now }
{
    match literal {
        Literal::Number(_) => ValueType::Int,
        Literal::Text(_) => ValueType::Text,
        Literal::True | Literal::False => ValueType::Bool,
        Literal::Null => ValueType::Null,
    }
}

// `!e` and `-e`, where the operand is at a place.
#[tactic(auto, unfolding(crate::specs::Operators::prefix_type))]
pub(crate) fn prefix_type(prefix: Prefix, at: usize, given: Typed) -> Typed
    ensures { result ≡ spec.prefix_type prefix at given }
{
    match prefix {
        Prefix::Not => always(ValueType::Bool, wanted(Kinds::Bool, at, given)),
        Prefix::Negate => always(ValueType::Int, wanted(Kinds::Int, at, given)),
    }
}

// Both operands are of the kinds, and the value is of the type.
fn both_of(
    kinds: Kinds,
    answer: ValueType,
    left_at: usize,
    left: Typed,
    right_at: usize,
    right: Typed,
) -> Typed
    ensures { result ≡ spec.both_of kinds answer left_at left right_at right }
{
    before(
        wanted(kinds, left_at, left),
        always(answer, wanted(kinds, right_at, right)),
    )
}

// The kinds that may be compared with a value of the type.
fn comparable(given: ValueType) -> Kinds
    ensures { result ≡ spec.comparable given }
{
    match given {
        ValueType::Int => Kinds::Int,
        ValueType::Text => Kinds::Text,
        ValueType::Any | ValueType::Null | ValueType::Bool | ValueType::Object | ValueType::Array =>
            Kinds::TextOrInt,
    }
}

// Two whole numbers or two texts, whose order is asked for.
fn compared(left_at: usize, left: Typed, right_at: usize, right: Typed) -> Typed
    ensures { result ≡ spec.compared left_at left right_at right }
{
    match wanted(Kinds::TextOrInt, left_at, left) {
        Ok(left) => always(ValueType::Bool, wanted(comparable(left), right_at, right)),
        Err(fault) => Err(fault),
    }
}

// Any two values that are compared for equality.
fn equated(left: Typed, right: Typed) -> Typed
    ensures { result ≡ spec.equated left right }
{
    before(left, always(ValueType::Bool, right))
}

// One of two values.
fn one_of(left: Typed, right: Typed) -> Typed
    ensures { result ≡ spec.one_of left right }
{
    match left {
        Ok(left) => match right {
            Ok(right) => Ok(left.common(right)),
            Err(fault) => Err(fault),
        },
        Err(fault) => Err(fault),
    }
}

// An operator between operands that are at two places.
#[tactic(auto, unfolding(crate::specs::Operators::operator_type))]
pub(crate) fn operator_type(
    operator: Operator,
    left_at: usize,
    left: Typed,
    right_at: usize,
    right: Typed,
) -> Typed
    ensures { result ≡ spec.operator_type operator left_at left right_at right }
{
    match operator {
        Operator::Coalesce => one_of(left, right),
        Operator::Equals | Operator::NotEquals => equated(left, right),
        Operator::Or | Operator::And => {
            both_of(Kinds::Bool, ValueType::Bool, left_at, left, right_at, right)
        }
        Operator::EqualsInsensitive | Operator::NotEqualsInsensitive => {
            both_of(Kinds::Text, ValueType::Bool, left_at, left, right_at, right)
        }
        Operator::Less | Operator::LessOrEqual | Operator::Greater | Operator::GreaterOrEqual =>
            compared(left_at, left, right_at, right),
        Operator::Add
        | Operator::Subtract
        | Operator::Multiply
        | Operator::Divide
        | Operator::Remainder => {
            both_of(Kinds::Int, ValueType::Int, left_at, left, right_at, right)
        }
    }
}

// `c ? x : y`, where the condition is at a place.
#[tactic(auto, unfolding(crate::specs::Operators::conditional_type))]
pub(crate) fn conditional_type(at: usize, condition: Typed, left: Typed, right: Typed) -> Typed
    ensures { result ≡ spec.conditional_type at condition left right }
{
    before(wanted(Kinds::Bool, at, condition), one_of(left, right))
}

// The kinds of values of which `.n` or `.?n` may name a part.
fn named_in(selector: Selector) -> Kinds
    ensures { result ≡ spec.named_in selector }
{
    match selector {
        Selector::Plain => Kinds::Object,
        Selector::Safe => Kinds::NullObjectOrArray,
    }
}

// `x.n` and `x.?n`, where x is at a place.
#[tactic(auto, unfolding(crate::specs::Operators::member_type))]
pub(crate) fn member_type(selector: Selector, at: usize, given: Typed) -> Typed
    ensures { result ≡ spec.member_type selector at given }
{
    always(ValueType::Any, wanted(named_in(selector), at, given))
}

// The kinds of values of which `[i]` or `[?i]` may give a part.
fn indexed_in(indexing: Indexing) -> Kinds
    ensures { result ≡ spec.indexed_in indexing }
{
    match indexing {
        Indexing::Plain => Kinds::ObjectOrArray,
        Indexing::Safe => Kinds::NullObjectOrArray,
    }
}

// The kinds of indices into a value of the type.
fn index_into(indexing: Indexing, given: ValueType) -> Kinds
    ensures { result ≡ spec.index_into indexing given }
{
    match indexing {
        Indexing::Plain => match given {
            ValueType::Object => Kinds::Text,
            ValueType::Array => Kinds::Int,
            ValueType::Any | ValueType::Null | ValueType::Text | ValueType::Int | ValueType::Bool =>
                Kinds::TextOrInt,
        },
        Indexing::Safe => Kinds::TextOrInt,
    }
}

// `x[i]` and `x[?i]`, where x and i are at two places.
#[tactic(auto, unfolding(crate::specs::Operators::element_type))]
pub(crate) fn element_type(
    indexing: Indexing,
    at: usize,
    given: Typed,
    index_at: usize,
    index: Typed,
) -> Typed
    ensures { result ≡ spec.element_type indexing at given index_at index }
{
    match wanted(indexed_in(indexing), at, given) {
        Ok(given) => always(
            ValueType::Any,
            wanted(index_into(indexing, given), index_at, index),
        ),
        Err(fault) => Err(fault),
    }
}

// `[for x in xs: e]`, where xs is at a place.
#[tactic(auto, unfolding(crate::specs::Operators::each_type))]
pub(crate) fn each_type(at: usize, over: Typed, body: Typed) -> Typed
    ensures { result ≡ spec.each_type at over body }
{
    before(
        wanted(Kinds::Array, at, over),
        always(ValueType::Array, body),
    )
}
