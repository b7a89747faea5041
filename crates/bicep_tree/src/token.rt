// From tokens to terminals.

ghost use Rattle.std.specs.Prelude.{◌≡◌, chars, IfOk};
ghost use Rattle.bicep_lexer.specs.Bytes.{number_from};
ghost use Rattle.bicep_lexer.specs.Reading.{standing};
ghost use Rattle.bicep_tree.specs.Terminals.{counted, word_terminal, mark_terminal};
ghost use Rattle.bicep_tree.specs.Terminals.{text_terminal, terminal_of};

use crate::leaf::{Access, Literal, Operator};
use crate::terminal::Terminal;
use crate::words::is_word;
use arm_value::{OutOfMemory, Text};
use bicep_lexer::{Token, TokenKind};
use std::alloc::Global;

fn counted(number: u64) -> Terminal
    ensures { result ≡ counted number }
{
    if number < 0x8000_0000_0000_0000 {
        Terminal::Literal(Literal::Number(number as i64))
    } else {
        Terminal::Other
    }
}

// The number that decimal digits write, where it is below 2^63.
fn number_of(digits: &[u8]) -> Terminal
    ensures { result ≡ counted (number_from 0 digits.now) }
{
    let mut number: u64 = 0;
    for digit in digits {
        let unit = u64::from(*digit).saturating_sub(48);
        match number.checked_mul(10) {
            None => return Terminal::Other,
            Some(tens) => match tens.checked_add(unit) {
                None => return Terminal::Other,
                Some(more) => number = more,
            },
        }
    }
    counted(number)
}

#[tactic(auto, unfolding(crate::specs::Terminals::word_terminal))]
fn word_terminal(alloc: Global, word: &str) -> Result<Terminal, OutOfMemory>
    ensures { IfOk result (λ t. t ≡ word_terminal (chars word.now)) }
{
    if is_word(word, "true") {
        return Ok(Terminal::Literal(Literal::True));
    }
    if is_word(word, "false") {
        return Ok(Terminal::Literal(Literal::False));
    }
    if is_word(word, "null") {
        return Ok(Terminal::Literal(Literal::Null));
    }
    Ok(Terminal::Name(Text::of(alloc, word)?))
}

fn mark_terminal(kind: TokenKind) -> Terminal
    ensures { result ≡ mark_terminal kind }
{
    match kind {
        TokenKind::Newline => Terminal::Newline,
        TokenKind::At => Terminal::At,
        TokenKind::Dot => Terminal::Access(Access::Member),
        TokenKind::SafeDot => Terminal::Access(Access::SafeMember),
        TokenKind::DoubleColon => Terminal::Access(Access::Nested),
        TokenKind::OpenParen => Terminal::OpenParen,
        TokenKind::CloseParen => Terminal::CloseParen,
        TokenKind::OpenBracket => Terminal::OpenBracket,
        TokenKind::SafeBracket => Terminal::SafeBracket,
        TokenKind::CloseBracket => Terminal::CloseBracket,
        TokenKind::OpenBrace => Terminal::OpenBrace,
        TokenKind::CloseBrace => Terminal::CloseBrace,
        TokenKind::Comma => Terminal::Comma,
        TokenKind::Colon => Terminal::Colon,
        TokenKind::Question => Terminal::Question,
        TokenKind::Assign => Terminal::Assign,
        TokenKind::Not => Terminal::Not,
        TokenKind::DoubleQuestion => Terminal::Operator(Operator::Coalesce),
        TokenKind::Or => Terminal::Operator(Operator::Or),
        TokenKind::And => Terminal::Operator(Operator::And),
        TokenKind::Equals => Terminal::Operator(Operator::Equals),
        TokenKind::NotEquals => Terminal::Operator(Operator::NotEquals),
        TokenKind::EqualsInsensitive => Terminal::Operator(Operator::EqualsInsensitive),
        TokenKind::NotEqualsInsensitive => Terminal::Operator(Operator::NotEqualsInsensitive),
        TokenKind::Less => Terminal::Operator(Operator::Less),
        TokenKind::LessOrEqual => Terminal::Operator(Operator::LessOrEqual),
        TokenKind::Greater => Terminal::Operator(Operator::Greater),
        TokenKind::GreaterOrEqual => Terminal::Operator(Operator::GreaterOrEqual),
        TokenKind::Plus => Terminal::Operator(Operator::Add),
        TokenKind::Minus => Terminal::Operator(Operator::Subtract),
        TokenKind::Star => Terminal::Operator(Operator::Multiply),
        TokenKind::Slash => Terminal::Operator(Operator::Divide),
        TokenKind::Percent => Terminal::Operator(Operator::Remainder),
        _ => Terminal::Other,
    }
}

// The terminal of a text or a piece of one, by the characters that it means.
fn text_terminal(kind: TokenKind, text: Text) -> Terminal
    ensures { result ≡ text_terminal kind text }
{
    match kind {
        TokenKind::LeftPiece => Terminal::LeftPiece(text),
        TokenKind::MiddlePiece => Terminal::MiddlePiece(text),
        TokenKind::RightPiece => Terminal::RightPiece(text),
        _ => Terminal::Literal(Literal::Text(text)),
    }
}

/// What the grammar sees in the token. A number of 2^63 or more, which `tokens` never returns, is
/// `Terminal::Other`. Where memory is refused: `OutOfMemory`.
pub fn terminal_of(alloc: Global, token: &Token) -> Result<Terminal, OutOfMemory>
    ensures { IfOk result (λ t. t ≡ terminal_of (standing token.now)) }
{
    match token.kind {
        TokenKind::Name => word_terminal(alloc, token.text),
        TokenKind::Number => Ok(number_of(token.text.as_bytes())),
        TokenKind::Text
        | TokenKind::VerbatimText
        | TokenKind::LeftPiece
        | TokenKind::MiddlePiece
        | TokenKind::RightPiece => Ok(text_terminal(token.kind, token.value(alloc)?)),
        _ => Ok(mark_terminal(token.kind)),
    }
}
