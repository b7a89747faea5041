// Where connections come in.
ghost use Rattle.std.specs.Prelude.{◌≡◌, ℕ, Bool, true, List, [], ◌∷◌, ◌++◌, IfOk};
ghost use Rattle.arm_edges.specs.Faults.{HasCause};
ghost use Rattle.arm_edges.specs.declared.exchange.Exchange.{Exchange};

use crate::{Connection, Failed};

/// Where connections come in, one after the other.
pub trait Link {
    /// A connection that came in.
    type End: Connection + Drop;

    /// Whether links of this kind report which connections were finished.
    ghost tells_finished: { Bool };

    /// What each finished connection came to, in the order in which they were finished.
    ghost finished: { Self → List Exchange };

    /// How often a call has failed.
    ghost faults: { Self → ℕ };

    /// Begins to take connections on that port of this machine.
    fn listen(&mut self, port: u16) -> Result<(), Failed>
        ensures finished { finished self.new ≡ finished self.old }
        ensures cause { HasCause (faults self.old) (faults self.new) result };

    /// The next connection that comes in. Nothing was read from it or written to it.
    fn accept(&mut self) -> Result<Self::End, Failed>
        ensures unread { IfOk result (λ end. Self.End.tells_rest ≡ true → Self.End.received end ≡ []) }
        ensures unwritten { IfOk result (λ end. Self.End.tells_written ≡ true → Self.End.written end ≡ []) }
        ensures finished { finished self.new ≡ finished self.old }
        ensures cause { HasCause (faults self.old) (faults self.new) result };

    /// Ends the connection, and adds what was read from it and written to it to the list of finished ones. It takes no
    /// memory, and cannot fail.
    fn finish(&mut self, end: Self::End)
        ensures finished { tells_finished ≡ true
            → finished self.new ≡ finished self.old
            ++ (record { received = Self.End.received end; written = Self.End.written end } ∷ []) }
        ensures faults { faults self.new ≡ faults self.old };

    /// The connections of a link that reports them report what was read and written.
    ghost ends_tell: { tells_finished ≡ true
        → (Self.End.tells_rest ≡ true) × (Self.End.tells_written ≡ true) };
}
