// The marks, by their bytes.

ghost use Rattle.std.specs.Prelude.{◌≡◌};
ghost use Rattle.bicep_lexer.specs.Marks.{double_mark, single_mark};

use crate::kind::TokenKind;

/// The kind of the mark of two bytes.
#[tactic(auto, unfolding(crate::specs::Marks::double_mark))]
pub fn double_mark(first: u8, second: u8) -> Option<TokenKind>
    ensures { result ≡ double_mark first second }
{
    match (first, second) {
        (b'=', b'=') => Some(TokenKind::Equals),
        (b'=', b'~') => Some(TokenKind::EqualsInsensitive),
        (b'!', b'=') => Some(TokenKind::NotEquals),
        (b'!', b'~') => Some(TokenKind::NotEqualsInsensitive),
        (b'<', b'=') => Some(TokenKind::LessOrEqual),
        (b'>', b'=') => Some(TokenKind::GreaterOrEqual),
        (b'&', b'&') => Some(TokenKind::And),
        (b'|', b'|') => Some(TokenKind::Or),
        (b'?', b'?') => Some(TokenKind::DoubleQuestion),
        (b'.', b'?') => Some(TokenKind::SafeDot),
        (b'[', b'?') => Some(TokenKind::SafeBracket),
        (b':', b':') => Some(TokenKind::DoubleColon),
        _ => None,
    }
}

/// The kind of the mark of one byte, other than a brace.
#[tactic(auto, unfolding(crate::specs::Marks::single_mark))]
pub fn single_mark(byte: u8) -> Option<TokenKind>
    ensures { result ≡ single_mark byte }
{
    match byte {
        b'@' => Some(TokenKind::At),
        b'.' => Some(TokenKind::Dot),
        b'(' => Some(TokenKind::OpenParen),
        b')' => Some(TokenKind::CloseParen),
        b'[' => Some(TokenKind::OpenBracket),
        b']' => Some(TokenKind::CloseBracket),
        b',' => Some(TokenKind::Comma),
        b':' => Some(TokenKind::Colon),
        b'?' => Some(TokenKind::Question),
        b'=' => Some(TokenKind::Assign),
        b'<' => Some(TokenKind::Less),
        b'>' => Some(TokenKind::Greater),
        b'+' => Some(TokenKind::Plus),
        b'-' => Some(TokenKind::Minus),
        b'*' => Some(TokenKind::Star),
        b'/' => Some(TokenKind::Slash),
        b'%' => Some(TokenKind::Percent),
        b'!' => Some(TokenKind::Not),
        _ => None,
    }
}
