// A sink in memory.
ghost use Rattle.std.specs.Prelude.{◌≡◌, ◌⊎◌, ◌+◌, ◌≤◌, ◌<◌, ◌↔◌, true, [], ◌++◌, length, take, min, IsErr, IsTrue};
ghost use Rattle.std.specs.Prelude.{IfOk, OnErr, if◌then◌else◌};
ghost use Rattle.std.specs.Vec.{vec_capacity};
ghost use Rattle.arm_edges.specs.Faults.{HasCause};
ghost use Rattle.arm_edges.specs.Ends.{nothing_in};
ghost use Rattle.arm_edges.specs.Calls.{answered, is_listed, limit_at, one_more};

use crate::{Calls, Failed, Sink};
use arm_value::OutOfMemory;
use std::alloc::Global;

/// A sink in memory.
#[derive(Debug, Drop)]
pub struct MemSink {
    /// All that was written.
    pub bytes: Vec<u8>,
    /// The most bytes that all writes together may have.
    pub room: usize,
    /// How its calls go.
    pub calls: Calls,
    ghost within: { length bytes.items ≤ room },
    ghost taken: { room ≤ vec_capacity bytes },
}

impl MemSink {
    /// A sink with room for so many bytes, which takes them by those cuts. The calls of those numbers fail.
    pub fn new(
        alloc: Global,
        cuts: Vec<usize>,
        fails: Vec<u64>,
        room: usize,
    ) -> Result<MemSink, OutOfMemory>
        ensures bytes { IfOk result (λ s. s.bytes.items ≡ []) }
        ensures room { IfOk result (λ s. s.room ≡ room) }
        ensures cuts { IfOk result (λ s. s.calls.cuts.items ≡ cuts.items) }
        ensures fails { IfOk result (λ s. s.calls.fails.items ≡ fails.items) }
        ensures made { IfOk result (λ s. s.calls.made ≡ 0) }
        ensures faults { IfOk result (λ s. s.calls.faults ≡ 0) }
    {
        Ok(MemSink {
            bytes: Vec::with_capacity(alloc, room)?,
            room,
            calls: Calls::new(cuts, fails),
        })
    }

    /// All that was written.
    pub fn as_slice(&self) -> &[u8]
        ensures { result.now ≡ self.now.bytes.items }
    {
        self.bytes.as_slice()
    }
}

impl Sink for MemSink {
    ghost tells_written = { true };

    ghost written = { λ s. s.bytes.items };

    ghost incoming = { λ _. nothing_in };

    ghost faults = { λ s. s.calls.faults };

    fn write(&mut self, bytes: &[u8]) -> Result<usize, Failed>
        ensures bound { IfOk result (λ n. n ≤ length bytes.now) }
        ensures some { IfOk result (λ n. 0 < length bytes.now → 0 < n) }
        ensures written { IfOk result (λ n. true ≡ true
            → self.new.bytes.items ≡ self.old.bytes.items ++ take n bytes.now) }
        ensures failed { OnErr result (true ≡ true → self.new.bytes.items ≡ self.old.bytes.items) }
        ensures apart { nothing_in ≡ nothing_in }
        ensures cause { HasCause self.old.calls.faults self.new.calls.faults result }
        ensures once { OnErr result (self.new.calls.faults ≡ one_more self.old.calls.faults) }
        ensures piece { IfOk result (λ n.
            n ≡ min (limit_at self.old.calls.cuts.items self.old.calls.made) (length bytes.now)) }
        ensures fails { IsErr result
            ↔ (IsTrue (is_listed self.old.calls.fails.items self.old.calls.made)
            ⊎ (self.old.room < length self.old.bytes.items
            + min (limit_at self.old.calls.cuts.items self.old.calls.made) (length bytes.now))) }
        ensures room { self.new.room ≡ self.old.room }
        ensures counted { self.new.calls ≡ answered result self.old.calls }
    {
        let limit = self.calls.begin()?;
        let count = limit.min(bytes.len());
        if count > self.room - self.bytes.len() {
            return Err(self.calls.fault());
        }
        match self.bytes.extend_from_slice(&bytes[..count]) {
            Ok(()) => Ok(count),
            Err(_) => unreachable!(),
        }
    }
}
