//! A table that is filled in an order of the symbols.
ghost use Rattle.std.specs.Prelude.{◌≡◌, ◌<◌, ℕ, List, length, slice_set, true, IfOk, OnOk};
ghost use Rattle.bicep_emission.specs.Emitted.{Frame};
ghost use Rattle.declaration_laws.specs.Sound.{IsSound};
ghost use Rattle.emitted_declarations.specs.Declared.{next, whole};
ghost use Rattle.emission_laws.specs.Holes.{IsRun};
ghost use Rattle.emission_laws.specs.Same.{SameEmission};
ghost use Rattle.declared_table.specs.Orders.{IsPaired, IsOrderOf};
ghost use Rattle.declared_table.specs.Seen.{file_of, files_of, file_in, files_in, whole_in, emission_in, sight, whole_sight, full_name_in, condition_in};

use crate::entries::entry_of;
use arm_value::OutOfMemory;
use declared_table::{Mark, Table};
use resolved_program::ResolvedFile;
use std::alloc::Global;

// Adds the entry of a symbol.
fn add(alloc: Global, table: &mut Table, number: usize) -> Result<(), OutOfMemory>
    requires there { number < length table.old.1.1 }
    requires sound { IsSound (file_in table.old) }
    requires same { SameEmission (next (file_in table.old) (files_in table.old) (emission_in table.old))
        (whole_in table.old) number }
    ensures file { (table.new.0 ≡ table.old.0) × (table.new.1.0 ≡ table.old.1.0) }
    ensures known { OnOk result (table.new.1.1 ≡ slice_set table.old.1.1 number true) }
{
    let entry = entry_of(alloc, table, number)?;
    table.push(number, entry)
}

/// The table of what the declarations of a file become. `marks` says what is known of each symbol, by its number, and
/// the order has each symbol after those that its declaration mentions.
///
/// # Errors
///
/// `OutOfMemory`.
pub fn table_of<'a>(
    alloc: Global,
    file: &'a ResolvedFile,
    files: &'a [ResolvedFile],
    marks: &'a [Mark],
    order: &[u32],
) -> Result<Table<'a>, OutOfMemory>
    requires paired { IsPaired (file_of file.now marks.now) }
    requires order { IsOrderOf (file_of file.now marks.now) order.now }
    requires sound { IsSound (file_of file.now marks.now) }
    ensures sight { IfOk result (λ t. sight t ≡ whole_sight (file_of file.now marks.now) (files_of files.now)) }
    ensures names { IfOk result (λ t. (n : ℕ) (fs : List Frame) → IsRun fs → full_name_in t n fs
        ≡ (whole (file_of file.now marks.now) (files_of files.now)).full_name n fs) }
    ensures conditions { IfOk result (λ t. (n : ℕ) (fs : List Frame) → IsRun fs → condition_in t n fs
        ≡ (whole (file_of file.now marks.now) (files_of files.now)).condition n fs) }
{
    let mut table = Table::empty(alloc, file, files, marks)?;
    for node in order {
        add(alloc, &mut table, *node as usize)?;
    }
    Ok(table)
}
