//! Expressions that are one word.
ghost use Rattle.std.specs.Prelude.{◌≡◌, true};
ghost use Rattle.arm_expr.specs.Tree.{text as text_tree};
ghost use Rattle.bicep_emission.specs.Emitted.{literal_of, no_value as no_value_tree};
ghost use Rattle.emitted_parts.specs.Built.{Is, is_ascii};

use crate::calls::call_none;
use arm_expr::Expr;
use arm_value::{OutOfMemory, Text};
use bicep_tree::Literal;
use std::alloc::Global;

/// A text.
pub fn text(alloc: Global, characters: &Text) -> Result<Expr, OutOfMemory>
    ensures { Is (text_tree characters.now) result }
{
    Ok(Expr::Text(characters.copy(alloc)?))
}

/// A text in ASCII.
pub fn word(alloc: Global, characters: &str) -> Result<Expr, OutOfMemory>
    ensures { is_ascii characters.now ≡ true → Is (text_tree characters.now) result }
{
    Ok(Expr::Text(Text::of(alloc, characters)?))
}

/// An expression that has no value and reads nothing.
pub fn no_value(alloc: Global) -> Result<Expr, OutOfMemory>
    ensures { Is no_value_tree result }
{
    call_none(alloc, "add")
}

/// What a literal becomes.
#[tactic(auto, using(arm_expr::proofs::ViewLemmas::views))]
pub fn literal(alloc: Global, literal: &Literal) -> Result<Expr, OutOfMemory>
    ensures { Is (literal_of literal.now) result }
{
    match literal {
        Literal::Number(number) => Ok(Expr::Int(*number)),
        Literal::Text(characters) => text(alloc, characters),
        Literal::True => call_none(alloc, "true"),
        Literal::False => call_none(alloc, "false"),
        Literal::Null => call_none(alloc, "null"),
    }
}
