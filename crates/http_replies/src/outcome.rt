// What became of a request.

use crate::code::Code;
use lock_rules::Cause;

/// What became of a request.
#[derive(Drop)]
pub enum Outcome {
    /// It was done.
    Done,
    /// It was refused, and nothing was changed.
    Refused(Code),
    /// Its deployment has failed.
    Failed(Cause),
    /// The provider of the seat with this number failed, and the deployment stays active.
    Provider(u32),
    /// The disk of the journal failed.
    Disk,
    /// The journal is full.
    Full {
        /// The length of the journal, in bytes.
        length: u64,
        /// The length that it would have had with the next record, in bytes.
        needed: u64,
    },
    /// Memory ran out.
    OutOfMemory,
}
