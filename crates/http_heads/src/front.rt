// What bytes begin with.

use crate::fields::BodyLength;
use httparse::spans::Span;

/// The head of a request, with places in the bytes that it was read from.
#[derive(Clone, Copy, Debug)]
pub struct Head {
    /// Where the method is.
    pub method: Span,
    /// Where the target is.
    pub target: Span,
    /// How many fields there are.
    pub fields: usize,
    /// What the fields say of the body's length.
    pub body: BodyLength,
    /// Whether there is a field `transfer-encoding`.
    pub coded: bool,
    /// Whether the connection is closed after the request.
    pub close: bool,
    /// How many bytes the head has.
    pub length: usize,
}

/// What bytes begin with.
#[derive(Clone, Copy, Debug)]
pub enum Front {
    /// This head.
    Head(Head),
    /// No head, whatever bytes follow.
    Hopeless,
    /// No head yet.
    Unfinished,
}
