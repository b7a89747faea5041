// Where bytes go out.
ghost use Rattle.std.specs.Prelude.{◌≡◌, ℕ, ◌<◌, ◌≤◌, Bool, true, List, ◌++◌, length, take, IfOk, OnErr};
ghost use Rattle.arm_edges.specs.Faults.{HasCause};
ghost use Rattle.arm_edges.specs.Ends.{Incoming};

use crate::Failed;

/// Where bytes go out, piece by piece.
pub trait Sink {
    /// Whether sinks of this kind report what was written.
    ghost tells_written: { Bool };

    /// All bytes that were written.
    ghost written: { Self → List ℕ };

    /// What comes into the same object, where it is a source too. No write changes it.
    ghost incoming: { Self → Incoming };

    /// How often a write has failed.
    ghost faults: { Self → ℕ };

    /// Writes the front of the bytes, and returns how many of them it wrote: at least one where there are any, else
    /// the call has failed.
    fn write(&mut self, bytes: &[u8]) -> Result<usize, Failed>
        ensures bound { IfOk result (λ n. n ≤ length bytes.now) }
        ensures some { IfOk result (λ n. 0 < length bytes.now → 0 < n) }
        ensures written { IfOk result (λ n. tells_written ≡ true
            → written self.new ≡ written self.old ++ take n bytes.now) }
        ensures failed { OnErr result (tells_written ≡ true → written self.new ≡ written self.old) }
        ensures apart { incoming self.new ≡ incoming self.old }
        ensures cause { HasCause (faults self.old) (faults self.new) result };
}
