// Why a deployment has no ending.

use thiserror::Error;

/// Why a deployment that was run has no ending. What was stored stays.
#[derive(Clone, Copy, Debug, Error, PartialEq, Eq)]
pub enum RunFault {
    /// The provider of the seat with this number failed.
    #[error("the provider of seat {0} failed")]
    Provider(u32),
    /// Out of memory.
    #[error("out of memory")]
    OutOfMemory,
}
