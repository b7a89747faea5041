//! Literals, and names of members.
ghost use Rattle.std.specs.Prelude.{◌≡◌, ◌-ℤ◌, pos, map, option_map};
ghost use Rattle.function_numbers.specs.Numbers.{within};
ghost use Rattle.arm_expr.specs.Brackets.{is_copy};
ghost use Rattle.bicep_tree.specs.declared.leaf.Literal.TheVariants as l;
ghost use Rattle.bicep_tree.specs.declared.leaf.Prefix.TheVariants as prefix;
ghost use Rattle.bicep_resolved.specs.Source as s;
ghost use Rattle.bicep_resolved.specs.View.{source_of, property_of, properties};
ghost use Rattle.emitted_trees.specs.EmittedTrees.{negated, signed, has_copy};
ghost use Rattle.emitted_trees.specs.Templates as t;
ghost use Rattle.tree_building.specs.Built.{IsTree};

use arm_expr::escaped;
use arm_value::{OutOfMemory, Text, Value};
use bicep_resolved::{Property, Source};
use bicep_tree::{Literal, Prefix};
use std::alloc::Global;

/// The value of a literal; a text in brackets has one `[` more.
pub(crate) fn literal(alloc: Global, literal: &Literal) -> Result<Value, OutOfMemory>
    ensures { IsTree (t.literal literal.now) result }
{
    match literal {
        Literal::Number(number) => Ok(Value::Int(*number)),
        Literal::Text(characters) => Ok(Value::Text(escaped(alloc, characters)?)),
        Literal::True => Ok(Value::Bool(true)),
        Literal::False => Ok(Value::Bool(false)),
        Literal::Null => Ok(Value::Null),
    }
}

#[tactic(auto, using(function_numbers::proofs::NumberLemmas::within_is))]
fn negated(number: i64) -> Option<i64>
    ensures { result ≡ negated number }
{
    0i64.checked_sub(number)
}

fn negated_literal(literal: &Literal) -> Option<i64>
    ensures { option_map l.Number result ≡ signed prefix.Negate (s.literal 0 literal.now) }
{
    match literal {
        Literal::Number(number) => negated(*number),
        Literal::Text(_) | Literal::True | Literal::False | Literal::Null => None,
    }
}

/// The number that a `-` before a number is.
#[tactic(auto, using(bicep_resolved::proofs::ViewLemmas::enums))]
pub fn signed(prefix: Prefix, inner: &Source) -> Option<i64>
    ensures { option_map l.Number result ≡ signed prefix (source_of inner.now) }
{
    match prefix {
        Prefix::Not => None,
        Prefix::Negate => match inner {
            Source::Literal(_, literal) => negated_literal(literal),
            Source::Name(_, _)
            | Source::Interpolated(_, _, _)
            | Source::Object(_, _)
            | Source::Array(_, _)
            | Source::Call(_, _, _)
            | Source::Instance(_)
            | Source::Field(_, _, _)
            | Source::Output(_, _, _)
            | Source::Member(_, _, _)
            | Source::Index(_, _, _)
            | Source::Prefix(_, _, _)
            | Source::Binary(_, _, _)
            | Source::Conditional(_, _, _) => None,
        },
    }
}

fn is_copy(name: &Text) -> bool
    ensures { result ≡ is_copy name.now }
{
    name.as_str() == "copy"
}

#[tactic(auto, using(bicep_resolved::proofs::ViewLemmas::structs))]
fn is_copy_member(property: &Property) -> bool
    ensures { result ≡ is_copy (property_of property.now).1 }
{
    is_copy(&property.name)
}

/// Whether a member is named as the one by which templates state loops.
pub fn has_copy(items: &[Property]) -> bool
    ensures { result ≡ has_copy (properties (map property_of items.now)) }
{
    for item in items {
        if is_copy_member(item) {
            return true;
        }
    }
    false
}
