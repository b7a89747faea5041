// Both sides of a connection in one object.
ghost use Rattle.std.specs.Prelude.{◌≡◌};
ghost use Rattle.arm_edges.specs.Ends.{comes_in, goes_out};

use crate::{Sink, Source};

/// A source and a sink in one, whose reads leave what goes out unchanged, and whose writes what comes in: what each
/// side reports of the other side is what the other side reports of itself.
pub trait Connection: Source + Sink {
    /// What no read changes is what was written, and how often a write has failed.
    ghost sends: { (end : Self) → Self.outgoing end ≡ goes_out (Self.written end) (Self.Sink.faults end) };

    /// What no write changes is what is yet to come, what was read, and how often a read has failed.
    ghost receives: { (end : Self)
        → Self.incoming end ≡ comes_in (Self.rest end) (Self.received end) (Self.Source.faults end) };
}
