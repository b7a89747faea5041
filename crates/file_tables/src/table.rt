//! The table of all declarations of a file.
ghost use Rattle.std.specs.Prelude.{IfOk};
ghost use Rattle.file_tables.specs.Orders.{IsOrderFor};
ghost use Rattle.file_tables.specs.Tables.{IsOfProgram, IsMadeTable};

use crate::laws::checked_files_are_emittable;
use crate::order::FileOrder;
use arm_value::OutOfMemory;
use declared_entries::table_of;
use declared_table::Table;
use resolved_program::ResolvedFile;
use sound_files::laws::orders_are_of_files;
use std::alloc::Global;

/// The table of what the declarations of a file of a checked program become. `order` is that of `file_order`.
///
/// # Errors
///
/// `OutOfMemory`.
pub fn file_table<'a>(
    alloc: Global,
    file: &'a ResolvedFile,
    files: &'a [ResolvedFile],
    order: &'a FileOrder,
) -> Result<Table<'a>, OutOfMemory>
    requires checked { IsOfProgram files.now file.now }
    requires order { IsOrderFor file.now order.now }
    ensures { IfOk result (IsMadeTable file.now files.now order.now) }
{
    checked_files_are_emittable();
    orders_are_of_files();
    table_of(
        alloc,
        file,
        files,
        order.marks.as_slice(),
        order.order.as_slice(),
    )
}
