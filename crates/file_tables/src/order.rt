//! The order in which the declarations of a file are emitted, and the marks of its symbols.
ghost use Rattle.std.specs.Prelude.{◌≡◌, ◌≤◌, IfOk};
ghost use Rattle.file_tables.specs.Orders.{HasNoCircle, HasOrder, IsOrder, IsOrderFor, mark_at};
ghost use Rattle.file_tables.specs.Orders.{AreEntries, HaveEntries, AreJoined, MakeFile, HaveBatches};
ghost use Rattle.file_tables.specs.Orders.{IsOfChecked, HasBatches};

use arm_value::OutOfMemory;
use bicep_circles::symbol_order;
use bicep_declared::Declared;
use bicep_states::{StateTable, has_entry, state_table};
use declared_table::{Batches, Mark};
use depend_graph::Sorted;
use resolved_program::ResolvedFile;
use sound_files::laws::checked_files_have_no_circle;
use std::alloc::Global;

/// What is known of a file before its table is filled.
#[derive(Drop)]
pub struct FileOrder {
    /// The numbers of its symbols, each after those that its declaration mentions.
    pub order: Vec<u32>,
    /// What is known of each symbol, by its number: whether it is a variable that has an entry in the template, which
    /// is one that reads no state, and the batches of its loop.
    pub marks: Vec<Mark>,
}

// The symbols of a file in which none mention each other in a circle, each after those that its declaration mentions.
fn order_of(alloc: Global, file: &ResolvedFile) -> Result<Vec<u32>, OutOfMemory>
    requires { HasNoCircle file.now }
    ensures { IfOk result (IsOrder file.now) }
{
    let sorted = symbol_order(
        alloc,
        file.entries.as_slice(),
        file.declared.declarations.as_slice(),
    )?;
    match sorted {
        Sorted::Order(order) => Ok(order),
        Sorted::Circle(_) => unreachable!(),
    }
}

// Whether each symbol is a variable that has an entry.
fn marks_of(
    alloc: Global,
    table: &StateTable,
    declarations: &[Declared],
) -> Result<Vec<bool>, OutOfMemory>
    ensures { AreEntries table.now declarations.now result }
{
    let mut marks = Vec::new(alloc);
    for number in 0..declarations.len() {
        marks.push(has_entry(table, declarations, number))?;
    }
    Ok(marks)
}

// The same of a file whose symbols have that order.
fn entries_of(alloc: Global, file: &ResolvedFile, order: &[u32]) -> Result<Vec<bool>, OutOfMemory>
    requires { HasOrder file.now order.now }
    ensures { IfOk result (HaveEntries file.now) }
{
    let declarations = file.declared.declarations.as_slice();
    let table = state_table(alloc, file.entries.as_slice(), declarations, order)?;
    marks_of(alloc, &table, declarations)
}

// The greater number.
fn greater(a: usize, b: usize) -> usize
    ensures first { a ≤ result }
    ensures second { b ≤ result }
{
    if a < b { b } else { a }
}

// The mark of a number.
fn mark_at(has_entry: &[bool], batches: &[Batches], number: usize) -> Mark
    ensures { result ≡ mark_at has_entry.now batches.now number }
{
    Mark {
        has_entry: has_entry.get(number).copied().unwrap_or(false),
        batches: batches.get(number).copied().unwrap_or(Batches::Parallel),
    }
}

// Marks of the variables that have an entry and of loops with these batches.
fn joined(alloc: Global, has_entry: &[bool], batches: &[Batches]) -> Result<Vec<Mark>, OutOfMemory>
    ensures { IfOk result (AreJoined has_entry.now batches.now) }
{
    let mut marks = Vec::new(alloc);
    for number in 0..greater(has_entry.len(), batches.len()) {
        marks.push(mark_at(has_entry, batches, number))?;
    }
    Ok(marks)
}

// The marks of a file whose symbols have that order.
fn marked(
    alloc: Global,
    file: &ResolvedFile,
    order: &[u32],
    batches: &[Batches],
) -> Result<Vec<Mark>, OutOfMemory>
    requires { HasOrder file.now order.now }
    ensures file { IfOk result (MakeFile file.now) }
    ensures batches { IfOk result (HaveBatches batches.now) }
{
    let has_entry = entries_of(alloc, file, order)?;
    joined(alloc, has_entry.as_slice(), batches)
}

/// An order of the symbols of a file of a checked program, each after those that its declaration mentions, and which
/// of them are variables that have an entry in the template. `batches` are those of loops, by the numbers of their
/// symbols.
///
/// # Errors
///
/// `OutOfMemory`, also where there are more than 4,294,967,295 symbols.
pub fn file_order(
    alloc: Global,
    file: &ResolvedFile,
    batches: &[Batches],
) -> Result<FileOrder, OutOfMemory>
    requires { IsOfChecked file.now }
    ensures order { IfOk result (IsOrderFor file.now) }
    ensures batches { IfOk result (HasBatches file.now batches.now) }
{
    checked_files_have_no_circle();
    let order = order_of(alloc, file)?;
    match marked(alloc, file, order.as_slice(), batches) {
        Ok(marks) => Ok(FileOrder { order, marks }),
        Err(error) => Err(error),
    }
}
