// Reads the text of an expression.

ghost use Rattle.std.specs.Prelude.{◌≡◌, ◌≢◌, ◌≤◌, ℕ, List, [], ◌∷◌, ◌++◌, chars, length, MatchOption, IfOk};
ghost use Rattle.arm_expr.specs.Answers.{Reads, IsReadAs};
ghost use Rattle.arm_expr.specs.Tree.{Tree, nesting};
ghost use Rattle.arm_expr.specs.Grammar.{Spells};
ghost use Rattle.arm_expr.specs.Print.{HasNames};
ghost use Rattle.arm_expr.specs.View.{tree_of};
ghost use Rattle.foundation.specs.Stopping.{Gives};
ghost use Rattle.arm_expr.specs.Stack.{kept_of, kept_reading};

use crate::characters::is_longer;
use crate::expr::Expr;
use crate::fault::ExprFault;
use crate::lexer::tokens;
use crate::parser::parse;
use foundation::Stop;
use foundation::limits::{MAX_EXPRESSION_CHARACTERS, MAX_EXPRESSION_NESTING};
use std::alloc::Global;

// The text between the brackets of a text.
fn inside(text: &str) -> Option<&str>
    ensures { MatchOption result
        ((inner : List ℕ) → chars text.now ≢ 91 ∷ (inner ++ 93 ∷ []))
        (λ inner. chars text.now ≡ 91 ∷ (chars inner.now ++ 93 ∷ [])) }
{
    match text.strip_prefix('[') {
        None => None,
        Some(rest) => match rest.strip_suffix(']') {
            None => None,
            Some(inner) => Some(inner),
        },
    }
}

// The expression between brackets, and None in its place where it nests too deep.
fn read_inside(alloc: Global, inner: &str) -> Result<Option<Expr>, Stop>
    ensures { Gives kept_of result (kept_reading (chars inner.now)) }
{
    match tokens(alloc, inner) {
        Ok(found) => parse(alloc, found),
        Err(stop) => Err(stop),
    }
}

/// Reads an expression text, such as `[concat('a', parameters('b'))]`, its brackets included.
///
/// It takes memory in proportion to the text, and it keeps nothing that nests above 64.
///
/// # Errors
///
/// `TooLong` for a text of more than 24,576 characters; else `NotAnExpression` for a text that spells
/// no expression; else `TooDeep` where the expression nests above 64; `OutOfMemory` only for a text
/// that is not too long.
pub fn read(alloc: Global, text: &str) -> Result<Expr, ExprFault>
    ensures answer { Reads MAX_EXPRESSION_CHARACTERS MAX_EXPRESSION_NESTING (chars text.now) result }

    // What is spelled within the limits is read, unless memory runs out.
    ensures spelled { (e : Tree) → Spells e (chars text.now)
        → length (chars text.now) ≤ MAX_EXPRESSION_CHARACTERS → nesting e ≤ MAX_EXPRESSION_NESTING → IsReadAs e result }

    // What is read may be printed.
    ensures names { IfOk result (λ e. HasNames (tree_of e)) }
{
    if is_longer(text, MAX_EXPRESSION_CHARACTERS) {
        return Err(ExprFault::TooLong);
    }
    match inside(text) {
        None => Err(ExprFault::NotAnExpression),
        Some(inner) => match read_inside(alloc, inner) {
            Ok(Some(e)) => Ok(e),
            Ok(None) => Err(ExprFault::TooDeep),
            Err(Stop::Refused) => Err(ExprFault::NotAnExpression),
            Err(Stop::OutOfMemory) => Err(ExprFault::OutOfMemory),
        },
    }
}
