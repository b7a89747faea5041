// What the fields of a head say of the body and of the connection.

ghost use Rattle.std.specs.Prelude.{◌≡◌, length, map, All};
ghost use Rattle.httparse.specs.Spans.{header_bytes, IsHeaderWithin};
ghost use Rattle.http_heads.specs.Fields.{body_length, bounded, closes, is_coded, is_named, is_number, says_close};
ghost use Rattle.http_heads.specs.Fields.{sized};

use httparse::spans::HeaderSpan;

/// How many bytes a body has at most.
pub const MAX_BODY_BYTES: usize = 4_194_304;

/// What the fields of a head say of the length of the body.
#[derive(Clone, Copy, Debug, PartialEq, Eq)]
pub enum BodyLength {
    /// Nothing.
    Absent,
    /// No number, or several that are spelled in different ways.
    Bad,
    /// This many bytes, `MAX_BODY_BYTES` at most.
    Bytes(usize),
    /// More than `MAX_BODY_BYTES`.
    TooLarge,
}

// Whether the field has this name, which is in small letters, in letters of any case.
fn is_named(bytes: &[u8], field: HeaderSpan, name: &str) -> bool
    requires { IsHeaderWithin (length bytes.now) field }
    ensures { result ≡ is_named name.now (header_bytes bytes.now field) }
{
    name.as_bytes().eq_ignore_ascii_case(field.name.of(bytes))
}

/// What the fields say of the length of the body.
pub(crate) fn body_length(bytes: &[u8], fields: &[HeaderSpan]) -> BodyLength
    requires { All (IsHeaderWithin (length bytes.now)) fields.now }
    ensures { result ≡ body_length (map (header_bytes bytes.now) fields.now) }
{
    let mut found: Option<&[u8]> = None;
    for field in fields {
        if is_named(bytes, *field, "content-length") {
            let value = field.value.of(bytes);
            match found {
                None => found = Some(value),
                Some(first) => if first != value {
                    return BodyLength::Bad;
                },
            }
        }
    }
    match found {
        None => BodyLength::Absent,
        Some(value) => sized(value),
    }
}

// The length that a value spells.
#[tactic(auto, unfolding(crate::specs::Fields::sized))]
fn sized(value: &[u8]) -> BodyLength
    ensures { result ≡ sized value.now }
{
    if !is_number(value) {
        return BodyLength::Bad;
    }
    let mut total = 0usize;
    for digit in value {
        if total > MAX_BODY_BYTES {
            return BodyLength::TooLarge;
        }
        total = total * 10 + (*digit - b'0') as usize;
    }
    bounded(total)
}

// This many bytes, where they are not too many.
fn bounded(total: usize) -> BodyLength
    ensures { result ≡ bounded total }
{
    if total <= MAX_BODY_BYTES {
        BodyLength::Bytes(total)
    } else {
        BodyLength::TooLarge
    }
}

// Whether the value is a number in decimal digits.
fn is_number(value: &[u8]) -> bool
    ensures { result ≡ is_number value.now }
{
    if value.is_empty() {
        return false;
    }
    for digit in value {
        if !digit.is_ascii_digit() {
            return false;
        }
    }
    true
}

/// Whether there is a field `transfer-encoding`.
pub(crate) fn is_coded(bytes: &[u8], fields: &[HeaderSpan]) -> bool
    requires { All (IsHeaderWithin (length bytes.now)) fields.now }
    ensures { result ≡ is_coded (map (header_bytes bytes.now) fields.now) }
{
    for field in fields {
        if is_named(bytes, *field, "transfer-encoding") {
            return true;
        }
    }
    false
}

/// Whether the connection is closed after a request of this minor version.
pub(crate) fn closes(bytes: &[u8], fields: &[HeaderSpan], minor: u8) -> bool
    requires { All (IsHeaderWithin (length bytes.now)) fields.now }
    ensures { result ≡ closes minor (map (header_bytes bytes.now) fields.now) }
{
    if minor == 0 {
        return true;
    }
    for field in fields {
        if says_close(bytes, *field) {
            return true;
        }
    }
    false
}

// Whether the field says that the connection is closed.
fn says_close(bytes: &[u8], field: HeaderSpan) -> bool
    requires { IsHeaderWithin (length bytes.now) field }
    ensures { result ≡ says_close (header_bytes bytes.now field) }
{
    if !is_named(bytes, field, "connection") {
        return false;
    }
    b"close".eq_ignore_ascii_case(field.value.of(bytes))
}
