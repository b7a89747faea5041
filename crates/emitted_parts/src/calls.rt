//! Calls of template functions.
ghost use Rattle.std.specs.Prelude.{◌≡◌, ℕ, true, List};
ghost use Rattle.arm_expr.specs.Tree.{Tree, Trees, call as call_tree, none};
ghost use Rattle.bicep_emission.specs.Emitted.{one, two, three};
ghost use Rattle.emitted_parts.specs.Built.{Is, IsText, Are, is_ascii};

use crate::lists::{lacks, with};
use arm_expr::Expr;
use arm_value::{OutOfMemory, Text};
use std::alloc::Global;

fn call_of(name: Text, arguments: Result<Vec<Expr>, OutOfMemory>) -> Result<Expr, OutOfMemory>
    ensures { (ts : Trees) → Are ts arguments → Is (call_tree name ts) result }
{
    match arguments {
        Ok(arguments) => Ok(Expr::Call(name, arguments)),
        Err(error) => Err(error),
    }
}

/// A call of the function of a name.
pub fn named(
    name: Result<Text, OutOfMemory>,
    arguments: Result<Vec<Expr>, OutOfMemory>,
) -> Result<Expr, OutOfMemory>
    ensures { (n : List ℕ) (ts : Trees) → IsText n name → Are ts arguments → Is (call_tree n ts) result }
{
    match name {
        Ok(name) => call_of(name, arguments),
        Err(_) => lacks(arguments),
    }
}

/// A call of the function of a name in ASCII, with these arguments.
pub fn call(
    alloc: Global,
    name: &str,
    arguments: Result<Vec<Expr>, OutOfMemory>,
) -> Result<Expr, OutOfMemory>
    ensures { is_ascii name.now ≡ true → (ts : Trees) → Are ts arguments → Is (call_tree name.now ts) result }
{
    named(Text::of(alloc, name), arguments)
}

/// A call without arguments.
pub fn call_none(alloc: Global, name: &str) -> Result<Expr, OutOfMemory>
    ensures { is_ascii name.now ≡ true → Is (call_tree name.now none) result }
{
    call(alloc, name, Ok(Vec::new(alloc)))
}

/// A call with one argument.
pub fn call_one(
    alloc: Global,
    name: &str,
    first: Result<Expr, OutOfMemory>,
) -> Result<Expr, OutOfMemory>
    ensures { is_ascii name.now ≡ true → (a : Tree) → Is a first → Is (call_tree name.now (one a)) result }
{
    call(alloc, name, with(Ok(Vec::new(alloc)), first))
}

/// A call with two arguments.
pub fn call_two(
    alloc: Global,
    name: &str,
    first: Result<Expr, OutOfMemory>,
    second: Result<Expr, OutOfMemory>,
) -> Result<Expr, OutOfMemory>
    ensures { is_ascii name.now ≡ true → (a b : Tree) → Is a first → Is b second
        → Is (call_tree name.now (two a b)) result }
{
    call(alloc, name, with(with(Ok(Vec::new(alloc)), first), second))
}

/// A call with three arguments.
pub fn call_three(
    alloc: Global,
    name: &str,
    first: Result<Expr, OutOfMemory>,
    second: Result<Expr, OutOfMemory>,
    third: Result<Expr, OutOfMemory>,
) -> Result<Expr, OutOfMemory>
    ensures { is_ascii name.now ≡ true → (a b c : Tree) → Is a first → Is b second → Is c third
        → Is (call_tree name.now (three a b c)) result }
{
    call(
        alloc,
        name,
        with(with(with(Ok(Vec::new(alloc)), first), second), third),
    )
}
