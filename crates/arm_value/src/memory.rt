// The answer to an allocation that is refused.
use std::alloc::AllocError;

/// Out of memory: an allocation was refused.
///
/// After a call with this answer, what it borrowed by `&mut` is unchanged where the call says so.
pub type OutOfMemory = AllocError;
