// The tokens of an expression text.

use arm_value::Text;

/// A token of an expression text.
#[derive(Drop)]
pub enum Token {
    /// A string between quotes.
    Text(Text),
    Int(i64),
    Name(Text),
    OpenParen,
    CloseParen,
    OpenBracket,
    CloseBracket,
    Comma,
    Dot,
}
