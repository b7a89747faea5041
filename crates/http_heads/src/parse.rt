// Heads at the front of bytes.

ghost use Rattle.std.specs.Prelude.{◌≡◌, ◌≤◌, length, take, map, All, IfOk, IfSome, IfNone};
ghost use Rattle.httparse.specs.Grammar.{NeverHasRequest};
ghost use Rattle.httparse.specs.Spans.{header_bytes, IsRequestWithin, RequestExceeds};
ghost use Rattle.http_heads.specs.Fields.{body_length, is_coded, closes};
ghost use Rattle.http_heads.specs.Fronts.{IsFront};

use crate::fields::{body_length, closes, is_coded};
use crate::front::{Front, Head};
use crate::spot::is_past_target;
use arm_value::OutOfMemory;
use httparse::spans::{EMPTY_HEADER_SPAN, HeaderSpan, RequestSpans, parse_request};
use httparse::{Error, Status};
use std::alloc::Global;

/// How many bytes a head has at most.
pub const MAX_HEAD_BYTES: usize = 16_384;

/// How many fields a head has at most.
pub const MAX_FIELDS: usize = 64;

// How many fields fit in a head: each has three bytes at least, as `a:` and the end of the line.
const MOST_FIELDS: usize = 5_462;

/// What the bytes begin with. Memory is taken only where there are more than `MAX_FIELDS` fields.
pub fn read_head(alloc: Global, bytes: &[u8]) -> Result<Front, OutOfMemory>
    requires { length bytes.now ≤ 16384 }
    ensures { IfOk result (IsFront bytes.now) }
{
    let mut few = [EMPTY_HEADER_SPAN; MAX_FIELDS];
    match front(bytes, &mut few) {
        Some(front) => Ok(front),
        None => read_long_head(alloc, bytes),
    }
}

// What the bytes begin with, however many fields there are.
fn read_long_head(alloc: Global, bytes: &[u8]) -> Result<Front, OutOfMemory>
    requires { length bytes.now ≤ 16384 }
    ensures { IfOk result (IsFront bytes.now) }
{
    let mut many = vec![in alloc; EMPTY_HEADER_SPAN; MOST_FIELDS]?;
    match front(bytes, &mut many) {
        Some(front) => Ok(front),
        None => unreachable!(),
    }
}

// What the bytes begin with; none where there are more fields than there is room.
fn front(bytes: &[u8], headers: &mut [HeaderSpan]) -> Option<Front>
    ensures front { IfSome result (IsFront bytes.now) }
    ensures full { IfNone result (RequestExceeds (length headers.old) bytes.now) }
{
    match parse_request(bytes, headers) {
        Ok(Status::Complete(spans)) => Some(Front::Head(head_of(bytes, headers, spans))),
        Ok(Status::Partial) => Some(Front::Unfinished),
        Err(Error::TooManyHeaders) => None,
        Err(_) => Some(no_head(bytes)),
    }
}

// Whether bytes that no bytes can make a head are hopeless. The target of a start line is tested once it is whole.
fn no_head(bytes: &[u8]) -> Front
    requires { NeverHasRequest bytes.now }
    ensures { IsFront bytes.now result }
{
    if is_past_target(bytes) {
        Front::Hopeless
    } else {
        Front::Unfinished
    }
}

// The head whose parts these places are.
fn head_of(bytes: &[u8], headers: &[HeaderSpan], spans: RequestSpans) -> Head
    requires { IsRequestWithin bytes.now headers.now spans }
    ensures method { result.method ≡ spans.method }
    ensures target { result.target ≡ spans.path }
    ensures fields { result.fields ≡ spans.headers }
    ensures body { result.body
        ≡ body_length (map (header_bytes bytes.now) (take spans.headers headers.now)) }
    ensures coded { result.coded
        ≡ is_coded (map (header_bytes bytes.now) (take spans.headers headers.now)) }
    ensures close { result.close
        ≡ closes spans.version (map (header_bytes bytes.now) (take spans.headers headers.now)) }
    ensures length { result.length ≡ spans.len }
{
    let fields = &headers[..spans.headers];
    Head {
        method: spans.method,
        target: spans.path,
        fields: spans.headers,
        body: body_length(bytes, fields),
        coded: is_coded(bytes, fields),
        close: closes(bytes, fields, spans.version),
        length: spans.len,
    }
}
