//! Loops of resources and modules.
ghost use Rattle.std.specs.Prelude.{ℕ, List, IfOk};
ghost use Rattle.arm_expr.specs.Print.{printed};
ghost use Rattle.arm_expr.specs.Tree.{Tree};
ghost use Rattle.bicep_declared.specs.View.{body_tree};
ghost use Rattle.emitted_expressions.specs.Built.{IsText};
ghost use Rattle.emitted_values.specs.EmittedTrees.{count_of};
ghost use Rattle.emitted_values.specs.Seen.{sight};
ghost use Rattle.emitted_resources.specs.Heads.{IsLoopOf, IsCopy};

use crate::turns::items_of;
use arm_value::{OutOfMemory, Text, Value};
use bicep_declared::DeclaredBody;
use emitted_expressions::{call_one, lacks};
use emitted_values::{Table, printed_text};
use std::alloc::Global;
use template_parts::{Batches, ResourceCopy};

// How often a loop runs, as the text of an expression in brackets.
fn count_text(alloc: Global, table: &Table, number: usize) -> Result<Text, OutOfMemory>
    ensures { IsText (printed (count_of ((sight table.now).scope.items number))) result }
{
    printed_text(
        alloc,
        call_one(alloc, "length", items_of(alloc, table, number)),
    )
}

// A loop of this name that runs so often.
fn copy_of(
    name: Result<Text, OutOfMemory>,
    count: Result<Text, OutOfMemory>,
    batches: Batches,
) -> Result<ResourceCopy, OutOfMemory>
    ensures { (n : List ℕ) (c : Tree) → IsText n name → IsText (printed c) count
        → IfOk result (IsLoopOf n c batches) }
{
    match name {
        Ok(name) => match count {
            Ok(count) => Ok(ResourceCopy {
                name,
                count: Value::Text(count),
                batches,
            }),
            Err(_) => lacks(name),
        },
        Err(_) => lacks(count),
    }
}

/// The loop of a resource or a module with the name of its symbol, where it has one.
pub(crate) fn copy(
    alloc: Global,
    table: &Table,
    number: usize,
    symbol: &Text,
    body: &DeclaredBody,
    batches: Batches,
) -> Result<Option<ResourceCopy>, OutOfMemory>
    ensures { IsCopy (body_tree body.now).each symbol.now (count_of ((sight table.now).scope.items number)) batches
        result }
{
    match &body.each {
        Some(_) => Ok(Some(copy_of(
            symbol.copy(alloc),
            count_text(alloc, table, number),
            batches,
        )?)),
        None => Ok(None),
    }
}
