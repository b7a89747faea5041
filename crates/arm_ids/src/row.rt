// Rows: entries in the order of their folded ids.
ghost use Rattle.std.specs.Prelude.{◌≡◌, ◌∷◌, ◌++◌, ◌<◌, ◌≤◌, [], map, length, slice_set, IfOk, OnOk};
ghost use Rattle.std.specs.Prelude.{option_map, if◌then◌else◌, is_ok};
ghost use Rattle.std.specs.List.{insert};
ghost use Rattle.std.specs.List.Sorted.{IsStrictlySortedBy};
ghost use Rattle.arm_ids.specs.Id.{HasKey};
ghost use Rattle.arm_ids.specs.Held.{id_cmp, held_by, find, put, without, IsPlaceOf};
ghost use Rattle.arm_ids.specs.Entry.{as_held};
ghost use Rattle.arm_ids.specs.Row.{order_of, row_held, AreRows};

use crate::entry::Entry;
use arm_value::{OutOfMemory, Text};
use std::alloc::{AllocError, Global};
use std::cmp::Ordering;

/// An entry beside its id in small ASCII letters, by which rows are in order.
#[derive(Drop)]
pub(crate) struct Row {
    pub(crate) order: Text,
    pub(crate) entry: Entry,
}

impl Row {
    pub(crate) fn copy(&self, alloc: Global) -> Result<Row, OutOfMemory>
        ensures { IfOk result (λ r. r ≡ self.now) }
    {
        Ok(Row {
            order: self.order.copy(alloc)?,
            entry: self.entry.copy(alloc)?,
        })
    }
}

/// Adds a copy of the row.
pub(crate) fn push_copy(alloc: Global, rows: &mut Vec<Row>, row: &Row) -> Result<(), OutOfMemory>
    ensures { OnOk result (rows.new.items ≡ rows.old.items ++ row.now ∷ []) }
{
    rows.push(row.copy(alloc)?)?;
    Ok(())
}

/// The entry of an id.
pub(crate) fn find_row<'a>(rows: &'a [Row], id: &Text) -> Option<&'a Entry>
    requires { AreRows rows.now }
    ensures { option_map (λ e. as_held e.now) result ≡ find id.now (map row_held rows.now) }
{
    match place(rows, id) {
        Ok(i) => Some(&rows[i].entry),
        Err(_) => None,
    }
}

/// Puts the row in its place.
pub(crate) fn put_row(rows: &mut Vec<Row>, row: Row) -> Result<(), OutOfMemory>
    requires rows { AreRows rows.old.items }
    requires order { row.order ≡ held_by (row_held row) }
    requires named { HasKey row.entry.id }
    ensures rows { AreRows rows.new.items }
    ensures held { map row_held rows.new.items
        ≡ (if is_ok result then put (row_held row) (map row_held rows.old.items) else map row_held rows.old.items) }
{
    match place(rows.as_slice(), &row.order) {
        Ok(i) => {
            replace_row(rows, i, row);
            Ok(())
        }
        Err(i) => insert_row(rows, i, row),
    }
}

fn replace_row(rows: &mut Vec<Row>, i: usize, row: Row)
    requires { i < length rows.old.items }
    ensures { rows.new.items ≡ slice_set rows.old.items i row }
{
    rows[i] = row;
}

fn insert_row(rows: &mut Vec<Row>, i: usize, row: Row) -> Result<(), OutOfMemory>
    requires { i ≤ length rows.old.items }
    ensures { rows.new.items
        ≡ (if is_ok result then insert rows.old.items i row else rows.old.items) }
{
    match rows.insert(i, row) {
        Ok(()) => Ok(()),
        Err(_) => Err(AllocError),
    }
}

/// Removes the row of an id and returns its entry.
pub(crate) fn take_row(rows: &mut Vec<Row>, id: &Text) -> Option<Entry>
    requires { AreRows rows.old.items }
    ensures rows { AreRows rows.new.items }
    ensures taken { option_map as_held result ≡ find id.now (map row_held rows.old.items) }
    ensures held { map row_held rows.new.items ≡ without id.now (map row_held rows.old.items) }
{
    match place(rows.as_slice(), id) {
        Ok(i) => {
            let row = rows.remove(i);
            Some(row.entry)
        }
        Err(_) => None,
    }
}

// The place of the id among the rows, or the place where it belongs.
fn place(rows: &[Row], id: &Text) -> Result<usize, usize>
    requires { IsStrictlySortedBy id_cmp (map order_of rows.now) }
    ensures { IsPlaceOf id.now (map order_of rows.now) result }
{
    rows.binary_search_by(
        |row: &Row| -> Ordering
            ensures { result ≡ id_cmp row.now.order id.entry.now }
        { row.order.as_str().cmp(id.as_str()) },
    )
}
