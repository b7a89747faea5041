// Where the start line of a request has come to.

ghost use Rattle.std.specs.Prelude.{◌≡◌};
ghost use Rattle.http_heads.specs.Spots.{begin, go_on, is_past, is_past_target, step};

use httparse::{is_method_token, is_uri_token};

/// Where the start line of a request has come to, up to its target.
#[derive(Clone, Copy, Debug)]
pub(crate) enum Spot {
    /// The start of a line, where a method or an empty line may begin.
    LineStart,
    /// After a CR at the start of a line.
    EmptyLine,
    /// In the method.
    Method,
    /// In the target.
    Target,
    /// Past the target, or in bytes that are no start line.
    Past,
}

/// Whether the bytes go past the target of a start line, or begin none.
#[tactic(auto, unfolding(crate::specs::Spots::is_past_target))]
pub(crate) fn is_past_target(bytes: &[u8]) -> bool
    ensures { result ≡ is_past_target bytes.now }
{
    let mut spot = Spot::LineStart;
    for byte in bytes {
        spot = step(spot, *byte);
    }
    is_past(spot)
}

// Whether it is past the target.
fn is_past(spot: Spot) -> bool
    ensures { result ≡ is_past spot }
{
    match spot {
        Spot::LineStart => false,
        Spot::EmptyLine => false,
        Spot::Method => false,
        Spot::Target => false,
        Spot::Past => true,
    }
}

// Where the line has come to with one byte more.
fn step(spot: Spot, byte: u8) -> Spot
    ensures { result ≡ step spot byte }
{
    match spot {
        Spot::LineStart => begin(byte),
        Spot::EmptyLine => if byte == b'\n' {
            Spot::LineStart
        } else {
            Spot::Past
        },
        Spot::Method => go_on(byte),
        Spot::Target => if is_uri_token(byte) {
            Spot::Target
        } else {
            Spot::Past
        },
        Spot::Past => Spot::Past,
    }
}

// At the start of a line.
fn begin(byte: u8) -> Spot
    ensures { result ≡ begin byte }
{
    if byte == b'\n' {
        return Spot::LineStart;
    }
    if byte == b'\r' {
        return Spot::EmptyLine;
    }
    if is_method_token(byte) {
        Spot::Method
    } else {
        Spot::Past
    }
}

// In the method.
fn go_on(byte: u8) -> Spot
    ensures { result ≡ go_on byte }
{
    if byte == b' ' {
        return Spot::Target;
    }
    if is_method_token(byte) {
        Spot::Method
    } else {
        Spot::Past
    }
}
