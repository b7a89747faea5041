// A source in memory.
ghost use Rattle.std.specs.Prelude.{◌≡◌, ◌≤◌, ◌<◌, ◌↔◌, true, [], ◌++◌, length, take, drop, min, IsErr, IfOk, OnErr};
ghost use Rattle.std.specs.Prelude.{IsTrue, if◌then◌else◌};
ghost use Rattle.arm_edges.specs.Faults.{HasCause};
ghost use Rattle.arm_edges.specs.Flow.{Moved};
ghost use Rattle.arm_edges.specs.Ends.{nothing_out};
ghost use Rattle.arm_edges.specs.Calls.{after_call, is_listed, limit_at};

use crate::{Calls, Failed, Source};

/// A source in memory.
#[derive(Debug, Drop)]
pub struct MemSource {
    /// Its contents, from their beginning.
    pub bytes: Vec<u8>,
    /// How many of them were read.
    pub taken: usize,
    /// How its calls go.
    pub calls: Calls,
    ghost within: { taken ≤ length bytes.items },
}

impl MemSource {
    /// A source of these bytes, which come by those cuts. The calls of those numbers fail.
    pub fn new(bytes: Vec<u8>, cuts: Vec<usize>, fails: Vec<u64>) -> MemSource
        ensures bytes { result.bytes ≡ bytes }
        ensures taken { result.taken ≡ 0 }
        ensures cuts { result.calls.cuts.items ≡ cuts.items }
        ensures fails { result.calls.fails.items ≡ fails.items }
        ensures made { result.calls.made ≡ 0 }
        ensures faults { result.calls.faults ≡ 0 }
    {
        MemSource {
            bytes,
            taken: 0,
            calls: Calls::new(cuts, fails),
        }
    }
}

impl Source for MemSource {
    ghost tells_rest = { true };

    ghost rest = { λ s. drop s.taken s.bytes.items };

    ghost received = { λ s. take s.taken s.bytes.items };

    ghost outgoing = { λ _. nothing_out };

    ghost faults = { λ s. s.calls.faults };

    fn read(&mut self, buf: &mut [u8]) -> Result<usize, Failed>
        ensures bound { IfOk result (λ n. n ≤ length buf.old) }
        ensures moved { IfOk result (λ n. true ≡ true
            → Moved n (drop self.old.taken self.old.bytes.items)
            (drop self.new.taken self.new.bytes.items) buf.new) }
        ensures received { IfOk result (λ n. true ≡ true
            → take self.new.taken self.new.bytes.items
            ≡ take self.old.taken self.old.bytes.items ++ take n buf.new) }
        ensures failed { OnErr result (true ≡ true
            → drop self.new.taken self.new.bytes.items ≡ drop self.old.taken self.old.bytes.items) }
        ensures unread { OnErr result (true ≡ true
            → take self.new.taken self.new.bytes.items ≡ take self.old.taken self.old.bytes.items) }
        ensures apart { nothing_out ≡ nothing_out }
        ensures cause { HasCause self.old.calls.faults self.new.calls.faults result }
        ensures listed { IsErr result
            ↔ IsTrue (is_listed self.old.calls.fails.items self.old.calls.made) }
        ensures piece { IfOk result (λ n.
            n ≡ min (limit_at self.old.calls.cuts.items self.old.calls.made)
            (min (length buf.old) (length (drop self.old.taken self.old.bytes.items)))) }
        ensures counted { self.new.calls ≡ after_call self.old.calls }
        ensures bytes { self.new.bytes ≡ self.old.bytes }
    {
        let limit = self.calls.begin()?;
        let rest = &self.bytes[self.taken..];
        let count = limit.min(buf.len()).min(rest.len());
        buf[..count].copy_from_slice(&rest[..count]);
        self.taken += count;
        Ok(count)
    }
}
