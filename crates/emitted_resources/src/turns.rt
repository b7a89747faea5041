//! The loop around a resource or a module.
ghost use Rattle.std.specs.Prelude.{◌∷◌, [], option_to_list};
ghost use Rattle.bicep_declared.specs.View.{body_tree};
ghost use Rattle.emitted_expressions.specs.Emitted.{Frame};
ghost use Rattle.emitted_expressions.specs.Sight.{IsFrame, AreFrames};
ghost use Rattle.emitted_values.specs.Files.{frames_around};
ghost use Rattle.emitted_expressions.specs.Built.{Is};
ghost use Rattle.emitted_sizes.specs.Extent.{IsOf};
ghost use Rattle.measured_expressions.specs.Spans.{AreSpans};
ghost use Rattle.emitted_values.specs.Seen.{whole_in};
ghost use Rattle.emitted_values.specs.Filled.{IsFilled};

use arm_expr::Expr;
use arm_value::OutOfMemory;
use bicep_declared::DeclaredBody;
use emitted_expressions::{Declarations, Turn, with};
use emitted_sizes::Extent;
use emitted_values::Table;
use emitted_values::turns::{copy_index, run};
use measured_expressions::{Sizes, Span};
use measured_trees::spans::run_of;
use std::alloc::Global;

/// What a loop of resources or modules runs over.
pub(crate) fn items_of<K: Declarations>(
    alloc: Global,
    declarations: &K,
    number: usize,
) -> Result<Expr, OutOfMemory>
    ensures { Is ((K.sight declarations.now).scope.items number) result }
{
    declarations.items(alloc, number)
}

/// The extent of what a loop of resources or modules runs over.
pub(crate) fn items_extent<K: Sizes>(sizes: &K, number: usize) -> Extent
    ensures { IsOf ((K.sight sizes.now).scope.items number) result }
{
    sizes.items(number)
}

// One run.
fn one_turn(alloc: Global, turn: Result<Turn, OutOfMemory>) -> Result<Vec<Turn>, OutOfMemory>
    ensures { (f : Frame) → IsFrame f turn → AreFrames (f ∷ []) result }
{
    with(Ok(Vec::new(alloc)), turn)
}

/// The run of the loop around a resource or a module, at the index of an instance, where there is one.
///
/// # Errors
///
/// `OutOfMemory`.
pub fn turns_around(
    alloc: Global,
    table: &Table,
    number: usize,
    body: &DeclaredBody,
) -> Result<Vec<Turn>, OutOfMemory>
    requires { IsFilled table.now }
    ensures { AreFrames (frames_around (whole_in table.now) number (body_tree body.now).each) result }
{
    match &body.each {
        Some(_) => {
            let turn = run(
                alloc,
                items_of(alloc, table, number),
                copy_index(alloc, None),
            );
            one_turn(alloc, turn)
        }
        None => Ok(Vec::new(alloc)),
    }
}

/// The extents of the run of the loop around a resource or a module, where there is one.
pub fn span_around(table: &Table, number: usize, body: &DeclaredBody) -> Option<Span>
    requires { IsFilled table.now }
    ensures { AreSpans (frames_around (whole_in table.now) number (body_tree body.now).each) (option_to_list result) }
{
    match &body.each {
        Some(_) => Some(run_of(None, items_extent(table, number))),
        None => None,
    }
}
