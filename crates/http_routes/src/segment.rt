// The segments of a path.

ghost use Rattle.std.specs.Prelude.{◌≡◌, None, option_map, IfOk};
ghost use Rattle.std.specs.List.{slice_split};
ghost use Rattle.percent_encoding.specs.Percent.{percent_decode};
ghost use Rattle.http_routes.specs.Segments.{all_segments, decoded, is_name, is_slash, is_word, segment_of};
ghost use Rattle.http_routes.specs.Segments.{segments_of};
ghost use Rattle.http_routes.specs.Seen.{option_seen, seen, sent_texts};

use arm_value::{OutOfMemory, Text};
use percent_encoding::percent_decode;
use std::alloc::Global;

/// A segment of a path.
#[derive(Drop)]
pub(crate) struct Segment<'a> {
    /// As it was sent.
    pub(crate) sent: &'a str,
    /// Decoded.
    pub(crate) name: Text,
}

/// The segments after the first slash of the path; none where one of them, decoded, is no name.
pub(crate) fn segments_of<'a>(
    alloc: Global,
    path: &'a str,
) -> Result<Option<Vec<Segment<'a>>>, OutOfMemory>
    ensures { IfOk result (λ segments. option_seen segments ≡ segments_of path.now) }
{
    let parts = parts(alloc, path)?;
    match parts.as_slice() {
        [_, sent @ ..] => all_segments(alloc, sent),
        [] => Ok(Some(Vec::new(alloc))),
    }
}

// The parts of a path between its slashes.
fn parts(alloc: Global, path: &str) -> Result<Vec<&str>, OutOfMemory>
    ensures { IfOk result (λ parts. sent_texts parts.items ≡ slice_split is_slash path.now) }
{
    path.split('/').collect(alloc)
}

// The segments that were sent so; none where one of them is no name.
fn all_segments<'a>(
    alloc: Global,
    sent: &[&'a str],
) -> Result<Option<Vec<Segment<'a>>>, OutOfMemory>
    ensures { IfOk result (λ segments. option_seen segments ≡ all_segments (sent_texts sent.now)) }
{
    let mut segments = Vec::new(alloc);
    for text in sent {
        match segment_of(alloc, text)? {
            Some(segment) => segments.push(segment)?,
            None => return Ok(None),
        }
    }
    Ok(Some(segments))
}

// The segment that was sent so; none where it decodes to no UTF-8, to nothing, or to a text with a slash.
fn segment_of<'a>(alloc: Global, sent: &'a str) -> Result<Option<Segment<'a>>, OutOfMemory>
    ensures { IfOk result (λ segment. option_map seen segment ≡ segment_of sent.now) }
{
    let bytes = decoded_bytes(alloc, sent)?;
    Ok(decoded(sent, bytes))
}

// The bytes that the segment decodes to.
fn decoded_bytes(alloc: Global, sent: &str) -> Result<Vec<u8>, OutOfMemory>
    ensures { IfOk result (λ bytes. bytes.items ≡ percent_decode sent.now) }
{
    let mut bytes = Vec::new(alloc);
    percent_decode(sent.as_bytes()).append_to(&mut bytes)?;
    Ok(bytes)
}

// The segment that was sent so and decodes to these bytes, where they are a name.
fn decoded<'a>(sent: &'a str, bytes: Vec<u8>) -> Option<Segment<'a>>
    ensures { option_map seen result ≡ decoded sent.now bytes.items }
{
    if !is_name(bytes.as_slice()) {
        return None;
    }
    match String::from_utf8(bytes) {
        Ok(name) => Some(Segment {
            sent,
            name: Text::from_string(name),
        }),
        Err(refused) => nothing(refused),
    }
}

// Nothing; the part is dropped.
fn nothing<'a, T: Drop>(_part: T) -> Option<Segment<'a>>
    ensures { option_map seen result ≡ None }
{
    None
}

// Whether there is a byte, and no slash.
fn is_name(bytes: &[u8]) -> bool
    ensures { result ≡ is_name bytes.now }
{
    if bytes.is_empty() {
        return false;
    }
    for byte in bytes {
        if *byte == b'/' {
            return false;
        }
    }
    true
}

/// Whether the segment was sent as this word, which is in small letters, in letters of any case.
pub(crate) fn is_word(word: &str, segment: &Segment) -> bool
    ensures { result ≡ is_word word.now (seen segment.now) }
{
    word.eq_ignore_ascii_case(segment.sent)
}
