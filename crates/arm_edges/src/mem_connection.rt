// A connection of a link in memory, before it comes in.
ghost use Rattle.std.specs.Prelude.{◌≡◌, [], IfOk};

use crate::{Calls, MemEnd};
use arm_value::OutOfMemory;
use std::alloc::Global;

/// A connection in memory that has not come in: nothing was read from it or written to it.
#[derive(Drop)]
pub struct MemConnection {
    end: MemEnd,
    ghost unread: { end.source.taken ≡ 0 },
    ghost unwritten: { end.sink.bytes.items ≡ [] },
}

impl MemConnection {
    /// A connection on which these bytes come in, with room for so many bytes that are written to it.
    pub fn new(
        alloc: Global,
        bytes: Vec<u8>,
        reads: Calls,
        writes: Calls,
        room: usize,
    ) -> Result<MemConnection, OutOfMemory>
        ensures bytes { IfOk result (λ c. c.end.source.bytes.items ≡ bytes.items) }
        ensures reads { IfOk result (λ c. c.end.source.calls ≡ reads) }
        ensures room { IfOk result (λ c. c.end.sink.room ≡ room) }
        ensures writes { IfOk result (λ c. c.end.sink.calls ≡ writes) }
    {
        Ok(MemConnection {
            end: MemEnd::new(alloc, bytes, reads, writes, room)?,
        })
    }

    /// The connection, which comes in.
    pub(crate) fn into_end(self) -> MemEnd
        ensures end { result ≡ self.end }
        ensures unread { result.source.taken ≡ 0 }
        ensures unwritten { result.sink.bytes.items ≡ [] }
    {
        self.end
    }
}
