// The notes of a book in memory: their parts one after another, in room taken before.

ghost use Rattle.std.specs.Prelude.{◌≡◌, ◌≤◌, ◌+◌, ◌*◌, ◌++◌, ◌∷◌, [], length, IfOk, OnOk};
ghost use Rattle.std.specs.Vec.{vec_capacity};
ghost use Rattle.dealer_trait.specs.declared.note.Note.{Note};
ghost use Rattle.driver_fakes.specs.Kept.{notes_in, size_of, note};

use arm_value::{Bytes, OutOfMemory};
use dealer_trait::Note;
use std::alloc::Global;

/// The kind of a note, and the lengths of its parts in bytes.
#[derive(Clone, Copy, Debug)]
pub struct Entry {
    pub kind: u8,
    pub first: usize,
    pub second: usize,
}

// Adds a note, in room that was taken before.
pub(crate) fn keep(
    entries: &mut Vec<Entry>,
    bytes: &mut Vec<u8>,
    kind: u8,
    first: &[u8],
    second: &[u8],
)
    requires entries_room { length entries.old.items + 1 ≤ vec_capacity entries.old }
    requires bytes_room { length bytes.old.items + length first.now + length second.now
        ≤ vec_capacity bytes.old }
    requires lengths { size_of entries.old.items ≡ length bytes.old.items }
    ensures notes { notes_in entries.new.items bytes.new.items
        ≡ notes_in entries.old.items bytes.old.items ++ note kind first.now second.now ∷ [] }
    ensures entries { length entries.new.items ≡ length entries.old.items + 1 }
    ensures bytes { length bytes.new.items
        ≡ length bytes.old.items + length first.now + length second.now }
    ensures lengths { size_of entries.new.items ≡ length bytes.new.items }
    ensures entries_capacity { vec_capacity entries.old ≤ vec_capacity entries.new }
    ensures bytes_capacity { vec_capacity bytes.old ≤ vec_capacity bytes.new }
{
    let entry = Entry {
        kind,
        first: first.len(),
        second: second.len(),
    };
    match entries.push(entry) {
        Ok(()) => {}
        Err(_) => unreachable!(),
    }
    match bytes.extend_from_slice(first) {
        Ok(()) => {}
        Err(_) => unreachable!(),
    }
    match bytes.extend_from_slice(second) {
        Ok(()) => {}
        Err(_) => unreachable!(),
    }
}

// The notes, each with a copy of its parts.
pub(crate) fn copies(
    alloc: Global,
    entries: &[Entry],
    bytes: &[u8],
) -> Result<Vec<Note>, OutOfMemory>
    requires { size_of entries.now ≡ length bytes.now }
    ensures { IfOk result (λ v. v.items ≡ notes_in entries.now bytes.now) }
{
    let mut notes = Vec::new(alloc);
    let mut rest = bytes;
    for entry in entries {
        let (first, after) = rest.split_at(entry.first);
        let (second, after) = after.split_at(entry.second);
        push_copy(alloc, &mut notes, entry.kind, first, second)?;
        rest = after;
    }
    Ok(notes)
}

// Adds a note with copies of its parts.
fn push_copy(
    alloc: Global,
    notes: &mut Vec<Note>,
    kind: u8,
    first: &[u8],
    second: &[u8],
) -> Result<(), OutOfMemory>
    ensures { OnOk result (notes.new.items
        ≡ notes.old.items ++ note kind first.now second.now ∷ []) }
{
    notes.push(copy(alloc, kind, first, second)?)?;
    Ok(())
}

// A note with copies of its parts.
fn copy(alloc: Global, kind: u8, first: &[u8], second: &[u8]) -> Result<Note, OutOfMemory>
    ensures { IfOk result (λ n. n ≡ note kind first.now second.now) }
{
    Ok(Note {
        kind,
        first: Bytes::from_vec(Vec::from_slice(alloc, first)?),
        second: Bytes::from_vec(Vec::from_slice(alloc, second)?),
    })
}
