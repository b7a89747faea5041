// Why a book refuses a note.

use thiserror::Error;

/// Why a book refuses a note.
#[derive(Clone, Copy, Debug, Error, PartialEq, Eq)]
pub enum BookFault {
    /// The book has no room for the note. Both in bytes: the length of the book, and its length with
    /// the note.
    #[error("the book is full at {length} bytes, and {needed} are needed")]
    Full { length: u64, needed: u64 },
    /// The disk failed; the count of faults rose. Once the book is opened again, the note may be there or not.
    #[error("the disk failed")]
    DiskFault,
    /// An earlier note failed by `DiskFault`. Nothing was noted.
    #[error("the book must be opened again")]
    MustReopen,
}
