// What the lexer answers, as a text.

use bicep_lexer::{Token, TokenKind};
use std::alloc::{AllocError, Global};

// The shape of a kind, as the tables write it.
fn shape(kind: TokenKind) -> &'static str {
    match kind {
        TokenKind::Name => "n",
        TokenKind::Number => "0",
        TokenKind::Newline => "¶",
        TokenKind::Text => "t",
        TokenKind::LeftPiece => "l",
        TokenKind::MiddlePiece => "m",
        TokenKind::RightPiece => "r",
        TokenKind::VerbatimText => "v",
        TokenKind::At => "@",
        TokenKind::Dot => ".",
        TokenKind::SafeDot => ".?",
        TokenKind::OpenParen => "(",
        TokenKind::CloseParen => ")",
        TokenKind::OpenBracket => "[",
        TokenKind::SafeBracket => "[?",
        TokenKind::CloseBracket => "]",
        TokenKind::OpenBrace => "{",
        TokenKind::CloseBrace => "}",
        TokenKind::Comma => ",",
        TokenKind::Colon => ":",
        TokenKind::DoubleColon => "::",
        TokenKind::Question => "?",
        TokenKind::DoubleQuestion => "??",
        TokenKind::Or => "||",
        TokenKind::And => "&&",
        TokenKind::Assign => "=",
        TokenKind::Equals => "==",
        TokenKind::NotEquals => "!=",
        TokenKind::EqualsInsensitive => "=~",
        TokenKind::NotEqualsInsensitive => "!~",
        TokenKind::Less => "<",
        TokenKind::LessOrEqual => "<=",
        TokenKind::Greater => ">",
        TokenKind::GreaterOrEqual => ">=",
        TokenKind::Plus => "+",
        TokenKind::Minus => "-",
        TokenKind::Star => "*",
        TokenKind::Slash => "/",
        TokenKind::Percent => "%",
        TokenKind::Not => "!",
    }
}

/// Adds the shapes of the tokens.
pub fn say_shapes(out: &mut String, tokens: &[Token]) -> Result<(), AllocError> {
    for token in tokens {
        out.push_str(shape(token.kind))?;
    }
    Ok(())
}

/// Adds the shapes of the tokens, and the offset and the text of the last one.
pub fn say_last(out: &mut String, tokens: &[Token]) -> Result<(), AllocError> {
    say_shapes(out, tokens)?;
    match tokens.last() {
        Some(last) => write!(out, " {} {}", last.at, last.text),
        None => out.push_str(", no token"),
    }
}

// Adds what the token means.
fn say_meaning(out: &mut String, alloc: Global, token: Option<&Token>) -> Result<(), AllocError> {
    match token {
        Some(token) => out.push_str(token.value(alloc)?.as_str()),
        None => out.push_str("no token"),
    }
}

/// Adds what the first and the last token mean.
pub fn say_first_and_last(
    out: &mut String,
    alloc: Global,
    tokens: &[Token],
) -> Result<(), AllocError> {
    say_meaning(out, alloc, tokens.first())?;
    out.push_str("|")?;
    say_meaning(out, alloc, tokens.last())
}
