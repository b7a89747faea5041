// Tokens.

use crate::kind::TokenKind;

/// A token of a source.
#[derive(Clone, Copy, PartialEq, Eq, Debug)]
pub struct Token<'a> {
    /// Its kind.
    pub kind: TokenKind,
    /// The offset of its first byte in the source, in bytes.
    pub at: usize,
    /// The slice of the source that it is, not empty in what `tokens` returns.
    pub text: &'a str,
}
