// A connection in memory.
ghost use Rattle.std.specs.Prelude.{◌≡◌, ◌⊎◌, ◌+◌, ◌≤◌, ◌<◌, ◌↔◌, true, [], ◌++◌, length, take, drop, min, IsErr};
ghost use Rattle.std.specs.Prelude.{IsTrue, IfOk, OnErr, refl};
ghost use Rattle.arm_edges.specs.Faults.{HasCause};
ghost use Rattle.arm_edges.specs.Flow.{Moved};
ghost use Rattle.arm_edges.specs.Ends.{comes_in, goes_out};
ghost use Rattle.arm_edges.specs.Calls.{after_call, answered, is_listed, limit_at};

use crate::finished::Place;
use crate::{Calls, Connection, Failed, MemSink, MemSource, Sink, Source};
use arm_value::OutOfMemory;
use std::alloc::Global;

/// A connection in memory. Its reads and its writes are numbered apart.
#[derive(Drop)]
pub struct MemEnd {
    /// What comes in.
    pub source: MemSource,
    /// What goes out.
    pub sink: MemSink,
    pub(crate) place: Place,
}

impl MemEnd {
    /// A connection on which these bytes come in, with room for so many bytes that are written to it.
    pub fn new(
        alloc: Global,
        bytes: Vec<u8>,
        reads: Calls,
        writes: Calls,
        room: usize,
    ) -> Result<MemEnd, OutOfMemory>
        ensures bytes { IfOk result (λ end. end.source.bytes.items ≡ bytes.items) }
        ensures taken { IfOk result (λ end. end.source.taken ≡ 0) }
        ensures reads { IfOk result (λ end. end.source.calls ≡ reads) }
        ensures written { IfOk result (λ end. end.sink.bytes.items ≡ []) }
        ensures room { IfOk result (λ end. end.sink.room ≡ room) }
        ensures writes { IfOk result (λ end. end.sink.calls ≡ writes) }
    {
        let source = MemSource {
            bytes,
            taken: 0,
            calls: reads,
        };
        let sink = MemSink {
            bytes: Vec::with_capacity(alloc, room)?,
            room,
            calls: writes,
        };
        let place = Place::new(alloc)?;
        Ok(MemEnd {
            source,
            sink,
            place,
        })
    }
}

impl Source for MemEnd {
    ghost tells_rest = { true };

    ghost rest = { λ end. drop end.source.taken end.source.bytes.items };

    ghost received = { λ end. take end.source.taken end.source.bytes.items };

    ghost outgoing = { λ end. goes_out end.sink.bytes.items end.sink.calls.faults };

    ghost faults = { λ end. end.source.calls.faults };

    fn read(&mut self, buf: &mut [u8]) -> Result<usize, Failed>
        ensures bound { IfOk result (λ n. n ≤ length buf.old) }
        ensures moved { IfOk result (λ n. true ≡ true
            → Moved n (drop self.old.source.taken self.old.source.bytes.items)
            (drop self.new.source.taken self.new.source.bytes.items) buf.new) }
        ensures received { IfOk result (λ n. true ≡ true
            → take self.new.source.taken self.new.source.bytes.items
            ≡ take self.old.source.taken self.old.source.bytes.items ++ take n buf.new) }
        ensures failed { OnErr result (true ≡ true
            → drop self.new.source.taken self.new.source.bytes.items
            ≡ drop self.old.source.taken self.old.source.bytes.items) }
        ensures unread { OnErr result (true ≡ true
            → take self.new.source.taken self.new.source.bytes.items
            ≡ take self.old.source.taken self.old.source.bytes.items) }
        ensures apart { goes_out self.new.sink.bytes.items self.new.sink.calls.faults
            ≡ goes_out self.old.sink.bytes.items self.old.sink.calls.faults }
        ensures cause { HasCause self.old.source.calls.faults self.new.source.calls.faults result }
        ensures listed { IsErr result
            ↔ IsTrue (is_listed self.old.source.calls.fails.items self.old.source.calls.made) }
        ensures piece { IfOk result (λ n.
            n ≡ min (limit_at self.old.source.calls.cuts.items self.old.source.calls.made)
            (min (length buf.old) (length (drop self.old.source.taken self.old.source.bytes.items)))) }
        ensures counted { self.new.source.calls ≡ after_call self.old.source.calls }
        ensures bytes { self.new.source.bytes ≡ self.old.source.bytes }
        ensures sink { self.new.sink ≡ self.old.sink }
    {
        self.source.read(buf)
    }
}

impl Sink for MemEnd {
    ghost tells_written = { true };

    ghost written = { λ end. end.sink.bytes.items };

    ghost incoming = { λ end. comes_in (drop end.source.taken end.source.bytes.items)
        (take end.source.taken end.source.bytes.items) end.source.calls.faults };

    ghost faults = { λ end. end.sink.calls.faults };

    fn write(&mut self, bytes: &[u8]) -> Result<usize, Failed>
        ensures bound { IfOk result (λ n. n ≤ length bytes.now) }
        ensures some { IfOk result (λ n. 0 < length bytes.now → 0 < n) }
        ensures written { IfOk result (λ n. true ≡ true
            → self.new.sink.bytes.items ≡ self.old.sink.bytes.items ++ take n bytes.now) }
        ensures failed { OnErr result (true ≡ true
            → self.new.sink.bytes.items ≡ self.old.sink.bytes.items) }
        ensures apart { comes_in (drop self.new.source.taken self.new.source.bytes.items)
            (take self.new.source.taken self.new.source.bytes.items) self.new.source.calls.faults
            ≡ comes_in (drop self.old.source.taken self.old.source.bytes.items)
            (take self.old.source.taken self.old.source.bytes.items) self.old.source.calls.faults }
        ensures cause { HasCause self.old.sink.calls.faults self.new.sink.calls.faults result }
        ensures piece { IfOk result (λ n.
            n ≡ min (limit_at self.old.sink.calls.cuts.items self.old.sink.calls.made) (length bytes.now)) }
        ensures fails { IsErr result
            ↔ (IsTrue (is_listed self.old.sink.calls.fails.items self.old.sink.calls.made)
            ⊎ (self.old.sink.room < length self.old.sink.bytes.items
            + min (limit_at self.old.sink.calls.cuts.items self.old.sink.calls.made) (length bytes.now))) }
        ensures room { self.new.sink.room ≡ self.old.sink.room }
        ensures counted { self.new.sink.calls ≡ answered result self.old.sink.calls }
        ensures source { self.new.source ≡ self.old.source }
    {
        self.sink.write(bytes)
    }
}

impl Connection for MemEnd {
    ghost sends = { λ end. refl };

    ghost receives = { λ end. refl };
}
