//! What the declarations of a file become, each variable of which has the one before it twice.
ghost use Rattle.emitted_parts.specs.Built.{Is};
ghost use Rattle.emitted_sizes.specs.Extent.{IsOf};
ghost use Rattle.tree_tests.specs.Sample.{doubled, sight_of};

use arm_expr::Expr;
use arm_value::{OutOfMemory, Text};
use bicep_resolved::Target;
use emitted_expressions::{Declarations, Turn};
use emitted_parts::calls::{call_one, call_three};
use emitted_parts::literals::{no_value, word};
use emitted_sizes::{Extent, calls as extents, literals as sizes};
use measured_expressions::{Sizes, Span};
use std::alloc::Global;

/// A file of variables.
#[derive(Clone, Copy)]
pub struct Sample;

fn doubled(alloc: Global, number: usize) -> Result<Expr, OutOfMemory>
    ensures { Is (doubled number) result }
{
    if number == 0 {
        return call_one(alloc, "parameters", word(alloc, "p"));
    }
    let text = word(alloc, "{0}{1}");
    let left = doubled(alloc, number - 1);
    let right = doubled(alloc, number - 1);
    call_three(alloc, "format", text, left, right)
}

fn doubled_extent(number: usize) -> Extent
    ensures { IsOf (doubled number) result }
{
    if number == 0 {
        return extents::call_one(10, sizes::word("p"));
    }
    let before = doubled_extent(number - 1);
    extents::call_three(6, sizes::word("{0}{1}"), before, before)
}

impl Declarations for Sample {
    ghost sight = { sight_of };

    fn symbol<'a>(&'a self, _number: usize) -> Option<&'a Text> {
        None
    }

    fn variable(&self, alloc: Global, number: usize) -> Result<Expr, OutOfMemory> {
        doubled(alloc, number)
    }

    fn items(&self, alloc: Global, _number: usize) -> Result<Expr, OutOfMemory> {
        no_value(alloc)
    }

    fn name(&self, alloc: Global, _number: usize, _turns: &[Turn]) -> Result<Expr, OutOfMemory> {
        no_value(alloc)
    }

    fn id(&self, alloc: Global, _number: usize, _turns: &[Turn]) -> Result<Expr, OutOfMemory> {
        no_value(alloc)
    }

    fn kind(&self, alloc: Global, _number: usize) -> Result<Text, OutOfMemory> {
        Ok(Text::from_string(String::new(alloc)))
    }

    fn version(&self, alloc: Global, _number: usize) -> Result<Text, OutOfMemory> {
        Ok(Text::from_string(String::new(alloc)))
    }

    fn output<'a>(&'a self, _target: Target, _number: usize) -> Option<&'a Text> {
        None
    }
}

impl Sizes for Sample {
    ghost sight = { sight_of };

    fn symbol<'a>(&'a self, _number: usize) -> Option<&'a Text> {
        None
    }

    fn variable(&self, number: usize) -> Extent {
        doubled_extent(number)
    }

    fn items(&self, _number: usize) -> Extent {
        sizes::no_value()
    }

    fn name(&self, _number: usize, _span: Option<Span>) -> Extent {
        sizes::no_value()
    }

    fn id(&self, _number: usize, _span: Option<Span>) -> Extent {
        sizes::no_value()
    }

    fn kind(&self, _number: usize) -> Extent {
        sizes::word("")
    }

    fn version(&self, _number: usize) -> Extent {
        sizes::word("")
    }

    fn output<'a>(&'a self, _target: Target, _number: usize) -> Option<&'a Text> {
        None
    }
}
