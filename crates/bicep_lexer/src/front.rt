// What is at the front of the rest of a source.

ghost use Rattle.std.specs.Prelude.{◌≡◌, ◌+◌, ◌≤◌, ◌<◌, ◌^◌, IsTrue, length};
ghost use Rattle.bicep_lexer.specs.Reader.Scanning.{counted};
ghost use Rattle.bicep_lexer.specs.Grammar.{outermost, innermost, opens_comment};
ghost use Rattle.bicep_lexer.specs.Faults.{unfinished};
ghost use Rattle.bicep_lexer.specs.Reader.Fronts.{number_front, piece, text_front, close_front, comment_front};
ghost use Rattle.bicep_lexer.specs.Reader.Fronts.{newline_front, directive_front, mark_front, other_front, front_of};

use crate::bytes::{begins_with, is_blank, is_letter};
use crate::fault::LexFault;
use crate::kind::TokenKind;
use crate::marks::{double_mark, single_mark};
use crate::skipped::{
    comment_length, is_directive, line_after_comment, line_length, newline_length,
};
use crate::texts::{PieceEnd, piece_end, quotes, verbatim_length};
use crate::words::{digits_length, is_within, name_length};

/// What is open: a brace, or an interpolated text with the offset of its opening quote.
#[derive(Clone, Copy)]
pub enum Open {
    Brace,
    Text(usize),
}

/// What is on the line so far.
#[derive(Clone, Copy)]
pub enum Line {
    /// A token.
    Within,
    /// No token; the line is the first of the file, or begins in a comment.
    Front,
    /// No token; the line follows a newline token.
    Folded,
}

/// What a token opens or closes.
#[derive(Clone, Copy)]
pub enum Turn {
    Stays,
    Opens(Open),
    Closes,
}

/// The front of the rest: something that is skipped, with what is then on the line, a newline token, or a
/// word with what it opens or closes. The number is its length in bytes.
#[derive(Clone, Copy)]
pub enum Front {
    Skipped(usize, Line),
    Newline(usize),
    Word(TokenKind, usize, Turn),
}

/// The offset of the opening quote of the outermost text that is open.
pub fn outermost(opened: &[Open]) -> Option<usize>
    ensures { result ≡ outermost opened.now }
{
    for each in opened {
        if let Open::Text(quote) = each {
            return Some(*quote);
        }
    }
    None
}

#[tactic(auto, unfolding(crate::specs::Faults::unfinished))]
fn unfinished(opened: &[Open], fault: LexFault) -> LexFault
    ensures { result ≡ unfinished opened.now fault }
{
    match outermost(opened) {
        Some(quote) => LexFault::OpenText(quote),
        None => fault,
    }
}

fn innermost(opened: &[Open]) -> Option<Open>
    ensures { result ≡ innermost opened.now }
{
    opened.last().copied()
}

#[tactic(auto, unfolding(crate::specs::Reader::Fronts::number_front))]
fn number_front(bytes: &[u8], at: usize) -> Result<Front, LexFault>
    ensures { result ≡ number_front at bytes.now }
{
    let length = digits_length(bytes);
    if is_within(&bytes[..length]) {
        Ok(Front::Word(TokenKind::Number, length, Turn::Stays))
    } else {
        Err(LexFault::BadNumber(at))
    }
}

fn piece(
    quote: usize,
    at: usize,
    opened: &[Open],
    last: (TokenKind, Turn),
    other: (TokenKind, Turn),
    end: PieceEnd,
) -> Result<Front, LexFault>
    requires { at + (counted end + 1) < 2 ^ 64 }
    ensures { result ≡ piece quote at opened.now last other end }
{
    match end {
        PieceEnd::Quote(length) => Ok(Front::Word(last.0, length + 1, last.1)),
        PieceEnd::Hole(length) => Ok(Front::Word(other.0, length + 1, other.1)),
        PieceEnd::Line => Err(LexFault::OpenText(quote)),
        PieceEnd::File => Err(unfinished(opened, LexFault::OpenText(quote))),
        PieceEnd::BadEscape(length) => Err(LexFault::BadEscape(at + (length + 1))),
    }
}

#[tactic(auto, unfolding(crate::specs::Reader::Fronts::text_front))]
fn text_front(bytes: &[u8], at: usize, opened: &[Open]) -> Result<Front, LexFault>
    requires some { 1 ≤ length bytes.now }
    requires bound { at + length bytes.now < 2 ^ 64 }
    ensures { result ≡ text_front at opened.now bytes.now }
{
    if quotes(3, bytes) == 3 {
        match verbatim_length(&bytes[3..]) {
            Some(length) => Ok(Front::Word(TokenKind::VerbatimText, length + 3, Turn::Stays)),
            None => Err(unfinished(opened, LexFault::OpenText(at))),
        }
    } else {
        let end = piece_end(&bytes[1..]);
        piece(
            at,
            at,
            opened,
            (TokenKind::Text, Turn::Stays),
            (TokenKind::LeftPiece, Turn::Opens(Open::Text(at))),
            end,
        )
    }
}

#[tactic(auto, unfolding(crate::specs::Reader::Fronts::close_front))]
fn close_front(bytes: &[u8], at: usize, opened: &[Open]) -> Result<Front, LexFault>
    requires some { 1 ≤ length bytes.now }
    requires bound { at + length bytes.now < 2 ^ 64 }
    ensures { result ≡ close_front at opened.now bytes.now }
{
    match innermost(opened) {
        None => Ok(Front::Word(TokenKind::CloseBrace, 1, Turn::Stays)),
        Some(Open::Brace) => Ok(Front::Word(TokenKind::CloseBrace, 1, Turn::Closes)),
        Some(Open::Text(quote)) => {
            let end = piece_end(&bytes[1..]);
            piece(
                quote,
                at,
                opened,
                (TokenKind::RightPiece, Turn::Closes),
                (TokenKind::MiddlePiece, Turn::Stays),
                end,
            )
        }
    }
}

#[tactic(auto, unfolding(crate::specs::Reader::Fronts::comment_front))]
fn comment_front(bytes: &[u8], at: usize, opened: &[Open], line: Line) -> Result<Front, LexFault>
    requires { 2 ≤ length bytes.now }
    ensures { result ≡ comment_front at opened.now line bytes.now }
{
    let rest = &bytes[2..];
    match comment_length(rest) {
        Some(length) => Ok(Front::Skipped(length + 2, line_after_comment(line, &rest[..length]))),
        None => Err(unfinished(opened, LexFault::OpenComment(at))),
    }
}

fn newline_front(line: Line, length: usize) -> Result<Front, LexFault>
    ensures { result ≡ newline_front line length }
{
    match line {
        Line::Folded => Ok(Front::Skipped(length, Line::Folded)),
        Line::Within | Line::Front => Ok(Front::Newline(length)),
    }
}

fn directive_front(bytes: &[u8], at: usize, line: Line) -> Result<Front, LexFault>
    ensures { result ≡ directive_front at line bytes.now }
{
    match line {
        Line::Within => Err(LexFault::BadCharacter(at)),
        Line::Front | Line::Folded => {
            if is_directive(bytes) {
                Ok(Front::Skipped(line_length(bytes), line))
            } else {
                Err(LexFault::BadCharacter(at))
            }
        }
    }
}

#[tactic(auto, unfolding(crate::specs::Reader::Fronts::mark_front))]
fn mark_front(bytes: &[u8], at: usize) -> Result<Front, LexFault>
    ensures { result ≡ mark_front at bytes.now }
{
    if let [first, second, ..] = bytes {
        if let Some(kind) = double_mark(*first, *second) {
            return Ok(Front::Word(kind, 2, Turn::Stays));
        }
    }
    match bytes {
        [first, ..] => match single_mark(*first) {
            Some(kind) => Ok(Front::Word(kind, 1, Turn::Stays)),
            None => Err(LexFault::BadCharacter(at)),
        },
        [] => Err(LexFault::BadCharacter(at)),
    }
}

fn opens_comment(bytes: &[u8], second: u8) -> bool
    ensures value { result ≡ opens_comment second bytes.now }
    ensures bound { IsTrue result → 2 ≤ length bytes.now }
{
    match bytes {
        [first, rest @ ..] => *first == b'/' && begins_with(rest, second),
        [] => false,
    }
}

// What is at the front where no blank, no name, no number and no text is.
fn other_front(
    bytes: &[u8],
    at: usize,
    opened: &[Open],
    line: Line,
    first: u8,
) -> Result<Front, LexFault>
    requires some { 1 ≤ length bytes.now }
    requires bound { at + length bytes.now < 2 ^ 64 }
    ensures { result ≡ other_front at opened.now line first bytes.now }
{
    if opens_comment(bytes, b'/') {
        Ok(Front::Skipped(line_length(bytes), line))
    } else if opens_comment(bytes, b'*') {
        comment_front(bytes, at, opened, line)
    } else if newline_length(bytes) != 0 {
        newline_front(line, newline_length(bytes))
    } else if first == b'#' {
        directive_front(bytes, at, line)
    } else if first == b'{' {
        Ok(Front::Word(TokenKind::OpenBrace, 1, Turn::Opens(Open::Brace)))
    } else if first == b'}' {
        close_front(bytes, at, opened)
    } else {
        mark_front(bytes, at)
    }
}

/// What is at the front of `bytes`, the rest of the source from the offset `at` on.
#[tactic(auto, unfolding(crate::specs::Reader::Fronts::front_of))]
pub fn front_of(bytes: &[u8], at: usize, opened: &[Open], line: Line) -> Result<Front, LexFault>
    requires { at + length bytes.now < 2 ^ 64 }
    ensures { result ≡ front_of at opened.now line bytes.now }
{
    let first = match bytes {
        [first, ..] => *first,
        [] => return Err(LexFault::BadCharacter(at)),
    };
    if is_blank(first) {
        Ok(Front::Skipped(1, line))
    } else if is_letter(first) {
        Ok(Front::Word(TokenKind::Name, name_length(bytes), Turn::Stays))
    } else if first.is_ascii_digit() {
        number_front(bytes, at)
    } else if first == b'\'' {
        text_front(bytes, at, opened)
    } else {
        other_front(bytes, at, opened, line, first)
    }
}
