// The calls of a disk in memory that may change what a crash leaves, in their order.
ghost use Rattle.std.specs.Prelude.{◌≡◌, ◌<◌, ◌≤◌, ◌+◌, ◌++◌, [], ◌∷◌, length, drop, IfOk};
ghost use Rattle.std.specs.Vec.{vec_capacity};
ghost use Rattle.mem_disk.specs.Log.{steps_of, move_of, size_of, total};

use crate::change::{Change, Entry};
use arm_edges::Part;
use std::alloc::{AllocError, Global};

/// The changes, and the bytes of their writes one after the other.
#[derive(Debug, Drop)]
pub struct Log {
    pub entries: Vec<Entry>,
    pub bytes: Vec<u8>,
    ghost whole: { total entries.items ≡ length bytes.items },
}

impl Log {
    // An empty log with room for so many changes and bytes.
    pub(crate) fn new(alloc: Global, changes: usize, bytes: usize) -> Result<Log, AllocError>
        ensures empty { IfOk result (λ l. steps_of l.bytes.items l.entries.items ≡ []) }
        ensures changes { IfOk result (λ l. changes ≤ vec_capacity l.entries) }
        ensures no_changes { IfOk result (λ l. l.entries.items ≡ []) }
        ensures bytes { IfOk result (λ l. bytes ≤ vec_capacity l.bytes) }
        ensures no_bytes { IfOk result (λ l. l.bytes.items ≡ []) }
    {
        Ok(Log {
            entries: Vec::with_capacity(alloc, changes)?,
            bytes: Vec::with_capacity(alloc, bytes)?,
        })
    }

    // Adds a change with the bytes that it writes, for which room was taken before.
    pub(crate) fn push(&mut self, part: Part, change: Change, bytes: &[u8])
        requires size { size_of change ≡ length bytes.now }
        requires room { length self.old.entries.items < vec_capacity self.old.entries }
        requires bytes_room { length self.old.bytes.items + length bytes.now ≤ vec_capacity self.old.bytes }
        ensures steps { steps_of self.new.bytes.items self.new.entries.items
            ≡ steps_of self.old.bytes.items self.old.entries.items ++ (part, move_of change bytes.now) ∷ [] }
        ensures entries { length self.new.entries.items ≡ length self.old.entries.items + 1 }
        ensures bytes { length self.new.bytes.items
            ≡ length self.old.bytes.items + length bytes.now }
        ensures capacity { vec_capacity self.old.entries ≤ vec_capacity self.new.entries }
        ensures bytes_capacity { vec_capacity self.old.bytes ≤ vec_capacity self.new.bytes }
    {
        match self.bytes.extend_from_slice(bytes) {
            Ok(()) => {}
            Err(_) => unreachable!(),
        }
        match self.entries.push(Entry { part, change }) {
            Ok(()) => {}
            Err(_) => unreachable!(),
        }
    }

    // The change of that number.
    pub(crate) fn entry(&self, i: usize) -> Entry
        requires { i < length self.now.entries.items }
        ensures { drop i self.now.entries.items ≡ result ∷ drop (i + 1) self.now.entries.items }
    {
        self.entries[i]
    }
}
