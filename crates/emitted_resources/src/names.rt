//! Names and conditions of resources and modules.
ghost use Rattle.std.specs.Prelude.{◌≡◌, IfOk, bytes_eq, codes};
ghost use Rattle.arm_expr.specs.View.{tree_of};
ghost use Rattle.emitted_expressions.specs.Sight.{frames_of};
ghost use Rattle.emitted_values.specs.Values.{plain_or_expression};
ghost use Rattle.emitted_values.specs.Templates as t;
ghost use Rattle.emitted_values.specs.Built.{IsTree};
ghost use Rattle.emitted_values.specs.Seen.{full_name_in, condition_in};
ghost use Rattle.emitted_resources.specs.Heads.{is_always, IsConditionText};

use arm_expr::{Expr, escaped, text_in_brackets};
use arm_value::{OutOfMemory, Text, Value};
use bicep_tree::is_word;
use emitted_expressions::{Turn, letting_go};
use emitted_values::Table;
use std::alloc::Global;

// The text of an expression in brackets.
fn expression(alloc: Global, e: &Expr) -> Result<Value, OutOfMemory>
    ensures { IsTree (t.expression (tree_of e.now)) result }
{
    Ok(Value::Text(text_in_brackets(alloc, e)?))
}

// The value of an expression: a text plain, and all else in brackets.
#[tactic(auto, using(arm_expr::proofs::ViewLemmas::views))]
fn plain_value(alloc: Global, e: &Expr) -> Result<Value, OutOfMemory>
    ensures { IsTree (plain_or_expression (tree_of e.now)) result }
{
    match e {
        Expr::Text(characters) => Ok(Value::Text(escaped(alloc, characters)?)),
        Expr::Int(_) => expression(alloc, e),
        Expr::Call(_, _) => expression(alloc, e),
        Expr::Member(_, _) => expression(alloc, e),
        Expr::Index(_, _) => expression(alloc, e),
    }
}

/// The whole name of a resource or a module inside the loop around it, where there is one.
pub(crate) fn name(
    alloc: Global,
    table: &Table,
    number: usize,
    turns: &[Turn],
) -> Result<Value, OutOfMemory>
    ensures { IsTree (plain_or_expression (full_name_in table.now number (frames_of turns.now))) result }
{
    match table.full_name(alloc, number, turns) {
        Ok(e) => letting_go(plain_value(alloc, &e), e),
        Err(error) => Err(error),
    }
}

// Whether a name is `true`.
fn is_true(name: &Text) -> bool
    ensures { result ≡ bytes_eq name.now (codes "true") }
{
    is_word(name.as_str(), "true")
}

// Whether an expression is `true()`.
#[tactic(auto, using(arm_expr::proofs::ViewLemmas::views))]
fn is_always(e: &Expr) -> bool
    ensures { result ≡ is_always (tree_of e.now) }
{
    match e {
        Expr::Call(name, arguments) => {
            if arguments.len() == 0 {
                is_true(name)
            } else {
                false
            }
        }
        Expr::Text(_) | Expr::Int(_) | Expr::Member(_, _) | Expr::Index(_, _) => false,
    }
}

// The text of a condition in brackets. One that always holds is left out.
fn condition_text(alloc: Global, e: &Expr) -> Result<Option<Value>, OutOfMemory>
    ensures { IfOk result (IsConditionText (tree_of e.now)) }
{
    if is_always(e) {
        return Ok(None);
    }
    Ok(Some(expression(alloc, e)?))
}

/// The condition of a resource or a module inside the loop around it, where there is one.
pub(crate) fn condition(
    alloc: Global,
    table: &Table,
    number: usize,
    turns: &[Turn],
) -> Result<Option<Value>, OutOfMemory>
    ensures { IfOk result (IsConditionText (condition_in table.now number (frames_of turns.now))) }
{
    match table.condition(alloc, number, turns) {
        Ok(e) => letting_go(condition_text(alloc, &e), e),
        Err(error) => Err(error),
    }
}
