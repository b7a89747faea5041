// Why tokens are not parsed.

use thiserror::Error;

/// Why tokens are not parsed. A place is the offset of a byte in the source.
#[derive(Debug, Clone, Copy, PartialEq, Eq, Error)]
pub enum ParseFault {
    /// The tokens spell no file. The place of the first token with which no file continues, or the end of the
    /// last token, where a file begins with all of them.
    #[error("not a file at {0}")]
    NotAFile(usize),
    /// An expression nests above 64. The place of a token up to which no file within the limit begins, or the end
    /// of the last token. By construction the token closes the part that nests too deep, or comes right after it.
    #[error("too deep at {0}")]
    TooDeep(usize),
    /// Memory was refused.
    #[error("out of memory")]
    OutOfMemory,
}
