// A link in memory.
ghost use Rattle.std.specs.Prelude.{◌≡◌, ◌⊎◌, ◌↔◌, true, [], ◌∷◌, ◌++◌, take, map, IsErr, IsTrue, IfOk, OnErr, refl};
ghost use Rattle.std.specs.Prelude.{MatchOption};
ghost use Rattle.arm_edges.specs.Faults.{HasCause};
ghost use Rattle.arm_edges.specs.Calls.{after_call, answered, is_listed};

use crate::finished::Finished;
use crate::{Calls, Exchange, Failed, Link, MemConnection, MemEnd};
use arm_value::Bytes;
use std::alloc::Global;
use std::collections::VecDeque;

/// A link in memory. It numbers its calls of `listen` and `accept` together, and accepts also where `listen` was not
/// called. An `accept` fails where no connection is left.
#[derive(Drop)]
pub struct MemLink {
    /// The connections that have not come in, in their order.
    pub waiting: VecDeque<MemConnection>,
    /// What each finished connection came to, in the order in which they were finished.
    finished: Finished,
    /// How its calls go.
    pub calls: Calls,
}

impl MemLink {
    /// A link on which these connections come in. The calls of those numbers fail.
    pub fn new(alloc: Global, connections: Vec<MemConnection>, fails: Vec<u64>) -> MemLink
        ensures waiting { result.waiting.items ≡ connections.items }
        ensures finished { result.finished ≡ [] }
        ensures fails { result.calls.fails.items ≡ fails.items }
        ensures made { result.calls.made ≡ 0 }
        ensures faults { result.calls.faults ≡ 0 }
    {
        MemLink {
            waiting: VecDeque::from(connections),
            finished: Finished::new(),
            calls: Calls::new(Vec::new(alloc), fails),
        }
    }

    /// Takes what the connection that was finished last came to off the list.
    pub fn take_last(&mut self) -> Option<Exchange>
        ensures taken { MatchOption result ((self.old.finished ≡ []) × (self.new.finished ≡ []))
            (λ last. self.old.finished ≡ self.new.finished ++ (last ∷ [])) }
        ensures waiting { self.new.waiting ≡ self.old.waiting }
        ensures calls { self.new.calls ≡ self.old.calls }
    {
        self.finished.pop()
    }
}

impl Link for MemLink {
    type End = MemEnd;

    ghost tells_finished = { true };

    ghost finished = { λ l. l.finished };

    ghost faults = { λ l. l.calls.faults };

    ghost ends_tell = { λ _. (refl, refl) };

    fn listen(&mut self, _port: u16) -> Result<(), Failed>
        ensures finished { self.new.finished ≡ self.old.finished }
        ensures cause { HasCause self.old.calls.faults self.new.calls.faults result }
        ensures listed { IsErr result ↔ IsTrue (is_listed self.old.calls.fails.items self.old.calls.made) }
        ensures counted { self.new.calls ≡ after_call self.old.calls }
        ensures waiting { self.new.waiting ≡ self.old.waiting }
    {
        self.calls.begin()?;
        Ok(())
    }

    fn accept(&mut self) -> Result<MemEnd, Failed>
        ensures unread { IfOk result (λ end. true ≡ true → take end.source.taken end.source.bytes.items ≡ []) }
        ensures unwritten { IfOk result (λ end. true ≡ true → end.sink.bytes.items ≡ []) }
        ensures finished { self.new.finished ≡ self.old.finished }
        ensures cause { HasCause self.old.calls.faults self.new.calls.faults result }
        ensures fails { IsErr result
            ↔ (IsTrue (is_listed self.old.calls.fails.items self.old.calls.made)
            ⊎ (self.old.waiting.items ≡ [])) }
        ensures next { IfOk result (λ end. map (λ c. c.end) self.old.waiting.items
            ≡ end ∷ map (λ c. c.end) self.new.waiting.items) }
        ensures waiting { OnErr result (self.new.waiting.items ≡ self.old.waiting.items) }
        ensures counted { self.new.calls ≡ answered result self.old.calls }
    {
        self.calls.begin()?;
        match self.waiting.pop_front() {
            Some(connection) => Ok(connection.into_end()),
            None => Err(self.calls.fault()),
        }
    }

    fn finish(&mut self, end: MemEnd)
        ensures finished { true ≡ true
            → self.new.finished ≡ self.old.finished
            ++ (record {
              received = take end.source.taken end.source.bytes.items;
              written = end.sink.bytes.items;
            } ∷ []) }
        ensures faults { self.new.calls.faults ≡ self.old.calls.faults }
        ensures calls { self.new.calls ≡ self.old.calls }
        ensures waiting { self.new.waiting ≡ self.old.waiting }
    {
        let MemEnd {
            source,
            sink,
            place,
        } = end;
        let mut received = source.bytes;
        received.truncate(source.taken);
        let exchange = Exchange {
            received: Bytes::from_vec(received),
            written: Bytes::from_vec(sink.bytes),
        };
        self.finished.push(place, exchange);
    }
}
