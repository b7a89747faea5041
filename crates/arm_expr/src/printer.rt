// The printer: the text of an expression.

ghost use Rattle.std.specs.Prelude.{◌≡◌, ◌<◌, ◌≤◌, ◌↔◌, ℕ, List, [], ◌∷◌, ◌++◌, chars, length, map, IfOk, OnOk};
ghost use Rattle.std.specs.Prelude.{IsErrOf, IsTrue, Result};
ghost use Rattle.std.specs.Fmt.{signed_decimal};
ghost use Rattle.arm_expr.specs.declared.expr.Expr.{Expr};
ghost use Rattle.arm_expr.specs.declared.fault.ExprFault.{ExprFault};
ghost use Rattle.arm_expr.specs.Tree.{nesting, trees};
ghost use Rattle.arm_expr.specs.Grammar.{doubled, Spells};
ghost use Rattle.arm_expr.specs.Print.{printed, Adds, printed_onto, arguments_onto, HasNames, HasInts, HaveInts};
ghost use Rattle.arm_expr.specs.Print.{IsWhole};
ghost use Rattle.arm_expr.specs.Answers.{Reads, IsReadAs};
ghost use Rattle.arm_expr.specs.View.{tree_of, text_of};

use crate::expr::Expr;
use crate::fault::ExprFault;
use crate::nesting::is_within;
use crate::room::left_after;
use arm_value::{OutOfMemory, Text};
use foundation::limits::{MAX_EXPRESSION_CHARACTERS, MAX_EXPRESSION_NESTING};
use std::alloc::Global;

fn put(out: &mut String, c: char) -> Result<(), OutOfMemory>
    ensures { OnOk result (text_of out.new ≡ text_of out.old ++ c ∷ []) }
{
    out.push(c)?;
    Ok(())
}

fn put_text(out: &mut String, text: &str) -> Result<(), OutOfMemory>
    ensures { OnOk result (text_of out.new ≡ text_of out.old ++ chars text.now) }
{
    out.push_str(text)?;
    Ok(())
}

fn put_int(out: &mut String, z: i64) -> Result<(), OutOfMemory>
    ensures written { OnOk result (text_of out.new ≡ text_of out.old ++ signed_decimal z) }
    ensures whole { IsWhole z }
{
    write!(out, "{z}")?;
    Ok(())
}

// Writes a character within quotes.
fn put_within_quotes(out: &mut String, c: char) -> Result<(), OutOfMemory>
    ensures { OnOk result (text_of out.new ≡ text_of out.old ++ doubled (c ∷ [])) }
{
    put(out, c)?;
    if c == '\'' {
        put(out, c)?;
    }
    Ok(())
}

fn put_doubled(out: &mut String, text: &str) -> Result<(), OutOfMemory>
    ensures { OnOk result (text_of out.new ≡ text_of out.old ++ doubled (chars text.now)) }
{
    for c in text.chars() {
        put_within_quotes(out, c)?;
    }
    Ok(())
}

// A string between quotes.
fn put_quoted(out: &mut String, s: &Text) -> Result<(), OutOfMemory>
    ensures { OnOk result (Adds (text_of out.old) (text_of out.new) (λ k. 39 ∷ (doubled s.now ++ 39 ∷ k))) }
{
    put(out, '\'')?;
    put_doubled(out, s.as_str())?;
    put(out, '\'')
}

// The name of a call and `(`.
fn put_call(out: &mut String, name: &Text) -> Result<(), OutOfMemory>
    ensures { OnOk result (Adds (text_of out.old) (text_of out.new) (λ k. name.now ++ 40 ∷ k)) }
{
    put_text(out, name.as_str())?;
    put(out, '(')
}

// `.` and the name of a member.
fn put_member(out: &mut String, name: &Text) -> Result<(), OutOfMemory>
    ensures { OnOk result (Adds (text_of out.old) (text_of out.new) (λ k. 46 ∷ (name.now ++ k))) }
{
    put(out, '.')?;
    put_text(out, name.as_str())
}

fn put_separator(out: &mut String) -> Result<(), OutOfMemory>
    ensures { OnOk result (Adds (text_of out.old) (text_of out.new) (λ k. 44 ∷ 32 ∷ k)) }
{
    put(out, ',')?;
    put(out, ' ')
}

#[cycle(printing)]
#[tactic(auto, using(crate::proofs::PrintLemmas::print_views))]
fn put_expr(out: &mut String, e: &Expr) -> Result<(), OutOfMemory>
    ensures written { OnOk result
        (Adds (text_of out.old) (text_of out.new) (printed_onto (tree_of e.now))) }
    ensures ints { OnOk result (HasInts (tree_of e.now)) }
{
    match e {
        Expr::Text(s) => put_quoted(out, s),
        Expr::Int(z) => put_int(out, *z),
        Expr::Call(name, arguments) => {
            put_call(out, name)?;
            put_arguments(out, arguments)
        }
        Expr::Member(inner, name) => {
            put_expr(out, inner)?;
            put_member(out, name)
        }
        Expr::Index(base, index) => {
            put_expr(out, base)?;
            put(out, '[')?;
            put_expr(out, index)?;
            put(out, ']')
        }
    }
}

// The arguments of a call and the `)` after them.
#[cycle(printing)]
#[tactic(auto, using(crate::proofs::PrintLemmas::print_views))]
fn put_arguments(out: &mut String, arguments: &[Expr]) -> Result<(), OutOfMemory>
    ensures written { OnOk result
        (Adds (text_of out.old) (text_of out.new) (arguments_onto (trees (map tree_of arguments.now)))) }
    ensures ints { OnOk result (HaveInts (trees (map tree_of arguments.now))) }
{
    let mut first = true;
    for argument in arguments {
        if !first {
            put_separator(out)?;
        }
        put_expr(out, argument)?;
        first = false;
    }
    put(out, ')')
}

/// The text of an expression in brackets, as `print` writes it, however long the text and however deep the expression.
///
/// It refuses nothing. So it is for an expression whose length and depth are known; `print` is for any other.
///
/// # Errors
///
/// `OutOfMemory`.
#[tactic(auto, using(crate::proofs::PrintLemmas::print_views))]
pub fn text_in_brackets(alloc: Global, e: &Expr) -> Result<Text, OutOfMemory>
    ensures text { IfOk result (λ t. t ≡ printed (tree_of e.now)) }
    ensures ints { OnOk result (HasInts (tree_of e.now)) }
{
    let mut out = String::new(alloc);
    put(&mut out, '[')?;
    put_expr(&mut out, e)?;
    put(&mut out, ']')?;
    Ok(Text::from_string(out))
}

fn is_too_long(e: &Expr) -> bool
    ensures { IsTrue result ↔ (MAX_EXPRESSION_CHARACTERS < length (printed (tree_of e.now))) }
{
    match left_after(e, MAX_EXPRESSION_CHARACTERS - 2) {
        None => true,
        Some(_) => false,
    }
}

/// Writes an expression in brackets, with `, ` between arguments, each quote in a string twice, and
/// no other blank.
///
/// `read` of the text is the expression.
///
/// # Errors
///
/// `TooLong` exactly where the text would have more than 24,576 characters; else `TooDeep` exactly
/// where the expression nests above 64; else `OutOfMemory`.
pub fn print(alloc: Global, e: &Expr) -> Result<Text, ExprFault>
    requires { HasNames (tree_of e.now) }
    ensures text { IfOk result (λ t. t ≡ printed (tree_of e.now)) }
    ensures too_long { IsErrOf result ExprFault.TooLong
        ↔ (MAX_EXPRESSION_CHARACTERS < length (printed (tree_of e.now))) }
    ensures too_deep { IsErrOf result ExprFault.TooDeep
        ↔ ((length (printed (tree_of e.now)) ≤ MAX_EXPRESSION_CHARACTERS)
        × (MAX_EXPRESSION_NESTING < nesting (tree_of e.now))) }
    ensures expression { IsErrOf result ExprFault.NotAnExpression → ⊥ }

    // The text spells the expression, and any answer of `read` to it is the expression.
    ensures spells { IfOk result (λ t. Spells (tree_of e.now) t) }
    ensures reads_back { IfOk result (λ t. (r : Result Expr ExprFault)
        → Reads MAX_EXPRESSION_CHARACTERS MAX_EXPRESSION_NESTING t r → IsReadAs (tree_of e.now) r) }
{
    if is_too_long(e) {
        return Err(ExprFault::TooLong);
    }
    if !is_within(e, MAX_EXPRESSION_NESTING) {
        return Err(ExprFault::TooDeep);
    }
    let text = text_in_brackets(alloc, e)?;
    Ok(text)
}
