// Why a source has no tokens.

use thiserror::Error;

/// Why a source has no tokens. A number is an offset in the source, in bytes.
#[derive(Debug, Clone, Copy, PartialEq, Eq, Error)]
pub enum LexFault {
    /// A character that begins no token, at its offset.
    #[error("bad character at {0}")]
    BadCharacter(usize),
    /// A text that comes to the end of its line or of the file, at the offset of its opening quote. Where the file
    /// ends in several open texts: at the first of these quotes.
    #[error("open text at {0}")]
    OpenText(usize),
    /// A `\` in a text that begins no escape, at its offset.
    #[error("bad escape at {0}")]
    BadEscape(usize),
    /// A `/*` without its `*/`, at its offset.
    #[error("open comment at {0}")]
    OpenComment(usize),
    /// A number above 9,223,372,036,854,775,807, at the offset of its first digit.
    #[error("bad number at {0}")]
    BadNumber(usize),
    /// Out of memory.
    #[error("out of memory")]
    OutOfMemory,
}
