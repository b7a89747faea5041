// What a call on something outside answers where it fails, and how failures are counted.
ghost use Rattle.std.specs.Prelude.{◌≡◌, ◌<◌, ◌≤◌, Ok, length, IfOk};
ghost use Rattle.arm_edges.specs.Faults.{HasCause};

use std::io;
use std::io::Write;

/// A call on something outside failed, and its count of faults rose in that call.
#[derive(Clone, Copy, Debug, PartialEq, Eq)]
pub struct Failed;

/// Why a tree returned no file.
#[derive(Clone, Copy, Debug, PartialEq, Eq)]
pub enum TreeFault {
    /// Out of memory.
    OutOfMemory,
    /// The file has more than 4,194,304 bytes.
    TooLarge,
    /// The file could not be read, and the tree's count of faults rose in this call.
    Fault,
}

// The value of a call, or a failure, which is counted.
pub(crate) fn counted<T>(faults: &mut u64, answer: io::Result<T>) -> Result<T, Failed>
    ensures cause { HasCause faults.old faults.new result }
    ensures value { IfOk result (λ value. answer ≡ Ok value) }
{
    match answer {
        Ok(value) => Ok(value),
        Err(_) => {
            *faults = faults.saturating_add(1);
            Err(Failed)
        }
    }
}

// Writes the front of the bytes, and returns how many of them it wrote. A write that takes none of some bytes has
// failed.
pub(crate) fn written<W: Write>(to: &mut W, bytes: &[u8], faults: &mut u64) -> Result<usize, Failed>
    ensures bound { IfOk result (λ n. n ≤ length bytes.now) }
    ensures some { IfOk result (λ n. 0 < length bytes.now → 0 < n) }
    ensures cause { HasCause faults.old faults.new result }
{
    match to.write(bytes) {
        Ok(count) if count > 0 || bytes.is_empty() => Ok(count),
        _ => {
            *faults = faults.saturating_add(1);
            Err(Failed)
        }
    }
}
