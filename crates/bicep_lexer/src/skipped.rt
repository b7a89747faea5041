// Line ends, and what is skipped.

ghost use Rattle.std.specs.Prelude.{◌≡◌, ◌≤◌, IsTrue, IfSome, length};
ghost use Rattle.bicep_lexer.specs.Skipped.{newline_length, closes_comment, line_after_comment, goes_on};
ghost use Rattle.bicep_lexer.specs.Skipped.{is_directive};
ghost use Rattle.bicep_lexer.specs.Reader.Scanning.{line_length, comment_length};

use crate::bytes::{begins_with, is_name_byte};
use crate::front::Line;

/// The length of the LF or the CR LF at the front in bytes, or 0.
pub fn newline_length(bytes: &[u8]) -> usize
    ensures { result ≡ newline_length bytes.now }
{
    match bytes {
        [first, rest @ ..] => {
            if *first == b'\n' {
                1
            } else if *first == b'\r' && begins_with(rest, b'\n') {
                2
            } else {
                0
            }
        }
        [] => 0,
    }
}

/// How many bytes the line still has.
pub fn line_length(bytes: &[u8]) -> usize
    ensures { result ≡ line_length bytes.now }
{
    for at in 0..bytes.len() {
        if newline_length(&bytes[at..]) != 0 {
            return at;
        }
    }
    bytes.len()
}

fn closes_comment(bytes: &[u8]) -> bool
    ensures value { result ≡ closes_comment bytes.now }
    ensures bound { IsTrue result → 2 ≤ length bytes.now }
{
    match bytes {
        [first, rest @ ..] => *first == b'*' && begins_with(rest, b'/'),
        [] => false,
    }
}

/// How many bytes a comment still has, its `*/` included; `None` where it is open.
pub fn comment_length(bytes: &[u8]) -> Option<usize>
    ensures value { result ≡ comment_length bytes.now }
    ensures bound { IfSome result (λ count. count ≤ length bytes.now) }
{
    for at in 0..bytes.len() {
        if closes_comment(&bytes[at..]) {
            return Some(at + 2);
        }
    }
    None
}

/// What is on the line after a comment.
pub fn line_after_comment(line: Line, comment: &[u8]) -> Line
    ensures { result ≡ line_after_comment line comment.now }
{
    match line {
        Line::Within => {
            if comment.contains(&b'\n') {
                Line::Front
            } else {
                Line::Within
            }
        }
        Line::Front => Line::Front,
        Line::Folded => Line::Folded,
    }
}

fn goes_on(bytes: &[u8]) -> bool
    ensures { result ≡ goes_on bytes.now }
{
    match bytes {
        [first, ..] => is_name_byte(*first) || *first == b'-',
        [] => false,
    }
}

/// Whether the bytes begin with the word `#disable-next-line`.
#[tactic(auto, unfolding(crate::specs::Skipped::is_directive))]
pub fn is_directive(bytes: &[u8]) -> bool
    ensures { result ≡ is_directive bytes.now }
{
    bytes.starts_with(b"#disable-next-line") && !goes_on(&bytes[18..])
}
