// Where bytes come in.
ghost use Rattle.std.specs.Prelude.{◌≡◌, ℕ, ◌≤◌, Bool, true, List, ◌++◌, length, take, IfOk, OnErr};
ghost use Rattle.arm_edges.specs.Faults.{HasCause};
ghost use Rattle.arm_edges.specs.Flow.{Moved};
ghost use Rattle.arm_edges.specs.Ends.{Outgoing};

use crate::Failed;

/// Bytes that come in, piece by piece.
pub trait Source {
    /// Whether sources of this kind report what is yet to come and what was read.
    ghost tells_rest: { Bool };

    /// The bytes that are yet to come.
    ghost rest: { Self → List ℕ };

    /// All bytes that were read.
    ghost received: { Self → List ℕ };

    /// What goes out of the same object, where it is a sink too. No read changes it.
    ghost outgoing: { Self → Outgoing };

    /// How often a read has failed.
    ghost faults: { Self → ℕ };

    /// Puts the next bytes at the front of the buffer, and returns how many; 0 for a buffer that is not empty is the
    /// end.
    fn read(&mut self, buf: &mut [u8]) -> Result<usize, Failed>
        ensures bound { IfOk result (λ n. n ≤ length buf.old) }
        ensures moved { IfOk result (λ n. tells_rest ≡ true
            → Moved n (rest self.old) (rest self.new) buf.new) }
        ensures received { IfOk result (λ n. tells_rest ≡ true
            → received self.new ≡ received self.old ++ take n buf.new) }
        ensures failed { OnErr result (tells_rest ≡ true → rest self.new ≡ rest self.old) }
        ensures unread { OnErr result (tells_rest ≡ true → received self.new ≡ received self.old) }
        ensures apart { outgoing self.new ≡ outgoing self.old }
        ensures cause { HasCause (faults self.old) (faults self.new) result };
}
