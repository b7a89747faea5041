// Disks of two parts.
ghost use Rattle.std.specs.Prelude.{◌≡◌, ◌<◌, ◌^◌, ◌≤◌, ◌+◌, ℕ, Bool, true, length, IfOk, OnOk};
ghost use Rattle.arm_edges.specs.Faults.{HasCause};
ghost use Rattle.arm_edges.specs.Disk.{Parts, on, other, overwritten, resized, At, Torn, Cut, Unchanged, GoesOn};
ghost use Rattle.arm_edges.specs.Disk.{ReadsAt, IsKept, AreWithin};

use crate::Failed;

/// One of the two parts of a disk.
#[derive(Clone, Copy, Debug, PartialEq, Eq)]
pub enum Part {
    A,
    B,
}

/// A disk of two parts, each a row of bytes. Places and lengths are in bytes.
pub trait Disk: Send {
    /// Whether disks of this kind report what a read returns.
    ghost tells_reads: { Bool };

    /// Whether they report what a crash leaves.
    ghost tells_images: { Bool };

    /// The bytes that a read returns.
    ghost reads: { Self → Parts };

    /// The number of this moment, which grows.
    ghost moment: { Self → ℕ };

    /// What a crash at a moment, up to this one, may leave.
    ghost left: { Self → ℕ → Parts → Type 0 };

    /// How often a call has failed.
    ghost faults: { Self → ℕ };

    /// How far the parts go, which no call changes.
    ghost reach: { Self → ℕ };

    /// The length of the part.
    fn length(&mut self, part: Part) -> Result<u64, Failed>
        ensures size { IfOk result (λ n. tells_reads ≡ true
            → n ≡ length (on part (reads self.old))) }
        ensures reads { reads self.new ≡ reads self.old }
        ensures images { tells_images ≡ true → GoesOn moment left Unchanged self.old self.new }
        ensures cause { HasCause (faults self.old) (faults self.new) result }
        ensures reach { reach self.new ≡ reach self.old };

    /// Puts the bytes from that place on at the front of the buffer, and returns how many; 0 for a buffer that is not
    /// empty is the end.
    fn read_at(&mut self, part: Part, at: u64, buf: &mut [u8]) -> Result<usize, Failed>
        ensures bound { IfOk result (λ n. n ≤ length buf.old) }
        ensures read { IfOk result (λ n. tells_reads ≡ true
            → ReadsAt at n (on part (reads self.old)) buf.new) }
        ensures reads { reads self.new ≡ reads self.old }
        ensures images { tells_images ≡ true → GoesOn moment left Unchanged self.old self.new }
        ensures cause { HasCause (faults self.old) (faults self.new) result }
        ensures reach { reach self.new ≡ reach self.old };

    /// Writes all the bytes at that place. A crash before the next sync may leave any bytes in their range and past the
    /// old end.
    fn write_at(&mut self, part: Part, at: u64, bytes: &[u8]) -> Result<(), Failed>
        requires { at + length bytes.now ≤ reach self.old }
        ensures written { OnOk result (tells_reads ≡ true
            → At part (λ old new. new ≡ overwritten at bytes.now old)
            (reads self.old) (reads self.new)) }
        ensures other_part { tells_reads ≡ true
            → on (other part) (reads self.new) ≡ on (other part) (reads self.old) }
        ensures images { tells_images ≡ true
            → GoesOn moment left (At part (Torn at (length bytes.now))) self.old self.new }
        ensures cause { HasCause (faults self.old) (faults self.new) result }
        ensures reach { reach self.new ≡ reach self.old };

    /// Cuts the part to that length, or fills it up to it with zeros. A crash before the next sync may leave any bytes
    /// past that length.
    fn cut(&mut self, part: Part, length: u64) -> Result<(), Failed>
        requires { length ≤ reach self.old }
        ensures cut { OnOk result (tells_reads ≡ true
            → At part (λ old new. new ≡ resized length old) (reads self.old) (reads self.new)) }
        ensures other_part { tells_reads ≡ true
            → on (other part) (reads self.new) ≡ on (other part) (reads self.old) }
        ensures images { tells_images ≡ true
            → GoesOn moment left (At part (Cut length)) self.old self.new }
        ensures cause { HasCause (faults self.old) (faults self.new) result }
        ensures reach { reach self.new ≡ reach self.old };

    /// Brings what was written to the part onto the disk: a crash then leaves the part as it reads.
    fn sync(&mut self, part: Part) -> Result<(), Failed>
        ensures kept { OnOk result (tells_images ≡ true
            → IsKept part (reads self.new) (left self.new (moment self.new))) }
        ensures reads { reads self.new ≡ reads self.old }
        ensures images { tells_images ≡ true → GoesOn moment left Unchanged self.old self.new }
        ensures cause { HasCause (faults self.old) (faults self.new) result }
        ensures reach { reach self.new ≡ reach self.old };

    ghost reach_fits: { (disk : Self) → reach disk < 2 ^ 64 };

    /// No part is longer than the reach.
    ghost reads_fit: { (disk : Self) → tells_reads ≡ true → AreWithin (reach disk) (reads disk) };

    /// A disk as it reads is one of its images.
    ghost reads_an_image: { (disk : Self) → tells_images ≡ true
        → left disk (moment disk) (reads disk) };
}
