// The list of what the finished connections of a link in memory came to.
ghost use Rattle.std.specs.Prelude.{◌≡◌, [], ◌∷◌, ◌++◌, MatchOption};

use crate::Exchange;
use arm_value::{Bytes, OutOfMemory};
use std::alloc::Global;
use std::marker::Model;

// What one connection came to, and those that were finished before it.
#[derive(Drop)]
pub(crate) struct Kept {
    exchange: Exchange,
    earlier: Option<Box<Kept>>,
}

// The place in a list for one connection. Each connection brings its place, so that to finish it takes no memory.
#[derive(Drop)]
pub(crate) struct Place {
    kept: Box<Kept>,
}

impl Place {
    pub(crate) fn new(alloc: Global) -> Result<Place, OutOfMemory> {
        let exchange = Exchange {
            received: Bytes::from_vec(Vec::new(alloc)),
            written: Bytes::from_vec(Vec::new(alloc)),
        };
        let kept = Kept {
            exchange,
            earlier: None,
        };
        Ok(Place {
            kept: Box::new(alloc, kept)?,
        })
    }
}

/// What the finished connections came to, the first of them first.
#[derive(Drop)]
pub struct Finished {
    last: Option<Box<Kept>>,
}

impl Model for Finished {
    ghost use Rattle.std.specs.Prelude.{List};
    ghost use Rattle.arm_edges.specs.declared.exchange.Exchange.{Exchange};
    ghost use Rattle.arm_edges.specs.Finished.{in_order};

    ghost Value = { List Exchange };

    ghost view = { λ f. in_order f.last };
}

impl Finished {
    pub(crate) fn new() -> Finished
        ensures { result ≡ [] }
    {
        Finished { last: None }
    }

    // Adds a connection at the end, in that place.
    pub(crate) fn push(&mut self, place: Place, exchange: Exchange)
        ensures { self.new ≡ self.old ++ (exchange ∷ []) }
    {
        let mut kept = place.kept;
        kept.exchange = exchange;
        kept.earlier = self.last.take();
        self.last = Some(kept);
    }

    // Takes the connection that was finished last off the list.
    pub(crate) fn pop(&mut self) -> Option<Exchange>
        ensures { MatchOption result ((self.old ≡ []) × (self.new ≡ []))
            (λ last. self.old ≡ self.new ++ (last ∷ [])) }
    {
        let kept = Box::into_inner(self.last.take()?);
        self.last = kept.earlier;
        Some(kept.exchange)
    }
}
