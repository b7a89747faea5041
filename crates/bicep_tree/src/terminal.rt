//! What the grammar sees in a token.

use crate::leaf::{Access, Literal, Operator};
use arm_value::Text;

/// What the grammar sees in a token. `true`, `false` and `null` are literals and no names.
#[derive(Drop)]
pub enum Terminal {
    /// A word other than `true`, `false` and `null`, by its characters.
    Name(Text),
    /// A number, a text without interpolation, `true`, `false` or `null`.
    Literal(Literal),
    /// The characters of an interpolated text before its first hole.
    LeftPiece(Text),
    /// The characters between two holes.
    MiddlePiece(Text),
    /// The characters after the last hole.
    RightPiece(Text),
    /// An operator between operands; `-` is also a prefix.
    Operator(Operator),
    /// `!`
    Not,
    /// `.`, `.?` or `::`
    Access(Access),
    /// `(`
    OpenParen,
    /// `)`
    CloseParen,
    /// `[`
    OpenBracket,
    /// `[?`
    SafeBracket,
    /// `]`
    CloseBracket,
    /// `{`
    OpenBrace,
    /// `}`
    CloseBrace,
    /// `,`
    Comma,
    /// `:`
    Colon,
    /// `?`
    Question,
    /// `=`
    Assign,
    /// `@`
    At,
    /// One line end, or several in a row.
    Newline,
    /// A number of 2^63 or more.
    Other,
}
