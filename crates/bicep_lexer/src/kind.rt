// The kinds of tokens.

/// The kind of a token: one for each kind of word and one for each mark.
#[derive(Clone, Copy, PartialEq, Eq, Debug)]
pub enum TokenKind {
    /// A letter or `_`, then letters, digits and `_`.
    Name,
    /// Decimal digits, of a value up to 9,223,372,036,854,775,807.
    Number,
    /// A line end. The line ends between it and the next token make no further token.
    Newline,
    /// A text in single quotes without interpolation, quotes included.
    Text,
    /// An interpolated text from its opening quote to the first `${`.
    LeftPiece,
    /// An interpolated text from a `}` to the next `${`.
    MiddlePiece,
    /// An interpolated text from its last `}` to its closing quote.
    RightPiece,
    /// A text between `'''` and `'''`.
    VerbatimText,
    /// `@`
    At,
    /// `.`
    Dot,
    /// `.?`
    SafeDot,
    /// `(`
    OpenParen,
    /// `)`
    CloseParen,
    /// `[`
    OpenBracket,
    /// `[?`
    SafeBracket,
    /// `]`
    CloseBracket,
    /// `{`
    OpenBrace,
    /// `}`
    CloseBrace,
    /// `,`
    Comma,
    /// `:`
    Colon,
    /// `::`
    DoubleColon,
    /// `?`
    Question,
    /// `??`
    DoubleQuestion,
    /// `||`
    Or,
    /// `&&`
    And,
    /// `=`
    Assign,
    /// `==`
    Equals,
    /// `!=`
    NotEquals,
    /// `=~`
    EqualsInsensitive,
    /// `!~`
    NotEqualsInsensitive,
    /// `<`
    Less,
    /// `<=`
    LessOrEqual,
    /// `>`
    Greater,
    /// `>=`
    GreaterOrEqual,
    /// `+`
    Plus,
    /// `-`
    Minus,
    /// `*`
    Star,
    /// `/`
    Slash,
    /// `%`
    Percent,
    /// `!`
    Not,
}
