// How a drive ends.

use dealer_trait::BookFault;
use thiserror::Error;

/// Why a drive ended before the dealer's end.
#[derive(Clone, Copy, Debug, Error, PartialEq, Eq)]
pub enum DriveFault {
    /// The provider of the seat with this number failed.
    #[error("the provider of seat {0} failed")]
    Provider(u32),
    /// The book refused a note.
    #[error("{0}")]
    Book(BookFault),
    /// The dealer or a provider was out of memory.
    #[error("out of memory")]
    OutOfMemory,
}

/// How a drive ended.
#[derive(Clone, Copy, Debug, PartialEq, Eq)]
pub enum Ended {
    /// The dealer has come to its end.
    Well,
    /// By this fault, after all open jobs had come in.
    Failed(DriveFault),
    /// A result was received that is of no open job.
    Stray,
}
