// How pieces of texts and verbatim texts end.

ghost use Rattle.std.specs.Prelude.{◌≡◌, ◌≤◌, IsTrue, IfSome, false, length};
ghost use Rattle.bicep_lexer.specs.Reader.Scanning.{counted, piece_end, verbatim_length};
ghost use Rattle.bicep_lexer.specs.Signs.{is_hole};
ghost use Rattle.bicep_lexer.specs.Texts.{is_break, quotes};

use crate::bytes::begins_with;
use crate::escapes::is_escape;

/// How a piece of a text in single quotes ends, and the number of bytes before that.
#[derive(Clone, Copy)]
pub enum PieceEnd {
    /// At its closing quote, which is counted.
    Quote(usize),
    /// At a `${`, which is counted.
    Hole(usize),
    /// At a line end, before the closing quote.
    Line,
    /// At the end of the file, before the closing quote.
    File,
    /// At a `\` that begins no escape; the `\` is not counted.
    BadEscape(usize),
}

fn is_hole(byte: u8, rest: &[u8]) -> bool
    ensures value { result ≡ is_hole byte rest.now }
    ensures bound { IsTrue result → 1 ≤ length rest.now }
{
    byte == b'$' && begins_with(rest, b'{')
}

fn is_break(byte: u8) -> bool
    ensures { result ≡ is_break byte }
{
    byte == b'\n' || byte == b'\r'
}

/// How a piece of a text in single quotes ends, from the byte after its first.
#[tactic(auto, using(crate::proofs::Ends::counted_within))]
pub fn piece_end(bytes: &[u8]) -> PieceEnd
    ensures value { result ≡ piece_end false bytes.now }
    ensures bound { counted result ≤ length bytes.now }
{
    let mut escaped = false;
    for at in 0..bytes.len() {
        let byte = bytes[at];
        let rest = &bytes[at + 1..];
        if escaped {
            escaped = false;
        } else if byte == b'\'' {
            return PieceEnd::Quote(at + 1);
        } else if is_hole(byte, rest) {
            return PieceEnd::Hole(at + 2);
        } else if is_break(byte) {
            return PieceEnd::Line;
        } else if byte == b'\\' {
            if !is_escape(rest) {
                return PieceEnd::BadEscape(at);
            }
            escaped = true;
        }
    }
    PieceEnd::File
}

/// The number of quotes at the front, of the first `most` bytes.
#[tactic(auto, unfolding(crate::specs::Texts::quotes))]
pub fn quotes(most: usize, bytes: &[u8]) -> usize
    ensures value { result ≡ quotes most bytes.now }
    ensures bound { result ≤ length bytes.now }
{
    bytes
        .iter()
        .take(most)
        .take_while(|byte| **byte == b'\'')
        .count()
}

/// How many bytes a verbatim text still has, its closing quotes included; `None` where it is open.
pub fn verbatim_length(bytes: &[u8]) -> Option<usize>
    ensures value { result ≡ verbatim_length bytes.now }
    ensures bound { IfSome result (λ count. count ≤ length bytes.now) }
{
    for at in 0..bytes.len() {
        let count = quotes(5, &bytes[at..]);
        if count >= 3 {
            return Some(at + count);
        }
    }
    None
}
