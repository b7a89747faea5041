//! The batches of loops.
ghost use Rattle.std.specs.Prelude.{◌≡◌, ◌++◌, ◌∷◌, [], ℕ, Some, map, slice_index_or, IfOk, IfErr};
ghost use Rattle.template_parts.specs.declared.looping.Batches.TheVariants.{Parallel};
ghost use Rattle.bicep_tree.specs.Tree.{trees};
ghost use Rattle.bicep_tree.specs.Tree as tree;
ghost use Rattle.bicep_tree.specs.View as view;
ghost use Rattle.bicep_decorators.specs.Decorators.{function_text};
ghost use Rattle.bicep_decorators.specs.Literals.{literal_in};
ghost use Rattle.symbol_decorators.specs.Batches as spec;
ghost use Rattle.symbol_decorators.specs.Limits.{IsSmall, AreBatches, IsFault, IsFaultOf, AreTheBatches};
ghost use Rattle.symbol_decorators.specs.View.{decorators_at};

use crate::fault::BatchFault;
use crate::listing::{Decorated, decorators};
use arm_value::{OutOfMemory, Text};
use bicep_decorators::{DecoratorKind, decorator_named};
use bicep_tree::{Decorator, Expr, Function, Literal, Statement};
use std::alloc::{AllocError, Global};
use template_parts::Batches;

// The name of a decorator, without `sys.`.
fn name_of(function: &Function) -> &Text
    ensures { result.now ≡ function_text function.now }
{
    match function {
        Function::Plain(name) => &name.text,
        Function::Qualified(_, _, name) => &name.text,
    }
}

// The number that is not negative.
fn natural(number: i64) -> Option<u64>
    ensures { result ≡ spec.natural number }
{
    if number < 0 {
        return None;
    }
    Some(number as u64)
}

// The number that a literal is.
fn number_in(literal: &Literal) -> Option<u64>
    ensures { result ≡ spec.number_in (Some literal.now) }
{
    match literal {
        Literal::Number(number) => natural(*number),
        Literal::Text(_) | Literal::True | Literal::False | Literal::Null => None,
    }
}

// The number that an expression is.
#[tactic(auto, using(bicep_tree::proofs::ViewLemmas::enums))]
fn number_of(e: &Expr) -> Option<u64>
    ensures { result ≡ spec.number_in (literal_in (view.tree_of e.now)) }
{
    match e {
        Expr::Literal(_, literal) => number_in(literal),
        Expr::Name(..)
        | Expr::Interpolated(..)
        | Expr::Object(..)
        | Expr::Array(..)
        | Expr::Parentheses(..)
        | Expr::Call(..)
        | Expr::Access(..)
        | Expr::Index(..)
        | Expr::NotNull(..)
        | Expr::Prefix(..)
        | Expr::Binary(..)
        | Expr::Conditional(..) => None,
    }
}

// The number that is the first argument.
fn first_number(arguments: &[Expr]) -> Option<u64>
    ensures { result ≡ spec.first_number (trees (map view.tree_of arguments.now)) }
{
    match arguments {
        [] => None,
        [first, ..] => number_of(first),
    }
}

// How large a batch is by a decorator of that kind.
fn size_by(kind: Option<DecoratorKind>, arguments: &[Expr]) -> Option<u64>
    ensures { result ≡ spec.size_by kind (trees (map view.tree_of arguments.now)) }
{
    match kind {
        Some(DecoratorKind::BatchSize) => first_number(arguments),
        Some(
            DecoratorKind::Description
            | DecoratorKind::Metadata
            | DecoratorKind::Allowed
            | DecoratorKind::Secure
            | DecoratorKind::MinLength
            | DecoratorKind::MaxLength
            | DecoratorKind::MinValue
            | DecoratorKind::MaxValue,
        ) => None,
        None => None,
    }
}

#[tactic(auto, using(bicep_tree::proofs::ViewLemmas::structs))]
fn size_of(decorator: &Decorator) -> Option<u64>
    ensures { result ≡ spec.size_of (view.decorator_of decorator.now) }
{
    let kind = decorator_named(name_of(&decorator.function));
    size_by(kind, decorator.arguments.as_slice())
}

// How large a batch is by the first of the decorators that says it.
fn size_in(decorators: &[Decorator]) -> Option<u64>
    ensures { result ≡ spec.size_in (tree.decorators (map view.decorator_of decorators.now)) }
{
    for decorator in decorators {
        match size_of(decorator) {
            Some(size) => return Some(size),
            None => {}
        }
    }
    None
}

// The batches of that size, or the size where it is too large.
fn sized(size: Option<u64>) -> Result<Batches, u64>
    ensures { AreBatches (spec.batches_by size) result }
{
    match size {
        None => Ok(Batches::Parallel),
        Some(size) => {
            if size <= 800 {
                Ok(Batches::Serial(size as u32))
            } else {
                Err(size)
            }
        }
    }
}

// The batches of a symbol.
fn batches_at(symbol: &Decorated) -> Result<Batches, u64>
    ensures { AreBatches (spec.batches_by (spec.size_in (decorators_at symbol.now))) result }
{
    sized(size_in(symbol.decorators))
}

// The batches with one more at their end.
fn with_last(found: Vec<Batches>, batches: Batches) -> Result<Vec<Batches>, OutOfMemory>
    ensures { IfOk result (λ v. v.items ≡ found.items ++ batches ∷ []) }
{
    let mut found = found;
    match found.push(batches) {
        Ok(()) => Ok(found),
        Err(_) => Err(AllocError),
    }
}

// The batches of each symbol.
fn batches_of(alloc: Global, symbols: &[Decorated]) -> Result<Vec<Batches>, BatchFault>
    ensures batches { IfOk result (λ v. AreTheBatches (map decorators_at symbols.now) v.items) }
    ensures fault { IfErr result (IsFaultOf (map decorators_at symbols.now)) }
{
    let mut found = Vec::new(alloc);
    for symbol in symbols {
        match batches_at(symbol) {
            Ok(batches) => found = with_last(found, batches)?,
            Err(size) => return Err(BatchFault::TooLarge(size)),
        }
    }
    Ok(found)
}

/// The batches of the loops of a file, by the numbers of their symbols.
///
/// # Errors
///
/// `TooLarge` where a batch has more than 800 instances, or `OutOfMemory`.
pub fn batches(alloc: Global, file: &[Statement]) -> Result<Vec<Batches>, BatchFault>
    ensures batches { IfOk result (λ v. (n : ℕ) → slice_index_or v.items n Parallel
        ≡ spec.batches_of (view.file_of file.now) n) }
    ensures small { IfOk result (λ v. (n : ℕ) → IsSmall (spec.batches_of (view.file_of file.now) n)) }
    ensures fault { IfErr result (IsFault (view.file_of file.now)) }
{
    let symbols = decorators(alloc, file)?;
    batches_of(alloc, symbols.as_slice())
}
