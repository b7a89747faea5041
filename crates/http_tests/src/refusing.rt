// Refusals, and which of two decides.
use crate::asking::check_rows;
use crate::showing::check_read;
use crate::writing::add_row;
use std::alloc::{AllocError, Global};
use std::test::Fail;

const ROWS: &str = "\
GET /subscriptions/s/resourceGroups?api-version=1 HTTP/2.0|| => BadRequest
GET /subscriptions/s/resourceGroups?api-version=1|| => BadRequest
GET /subscriptions/s/resourceGroups?api-version=1 HTTP/1.1|host => BadRequest
GET /subscriptions/s/resourceGroups?api-version=1 HTTP/1.1|content-length: 2|content-length: 3|| => BadRequest
GET /subscriptions/s/resourceGroups?api-version=1 HTTP/1.1|content-length: 2|content-length: 2||{} => ListGroups s
GET /subscriptions/s/resourceGroups?api-version=1 HTTP/1.1|content-length: 2|Content-Length: 02||{} => BadRequest
GET /subscriptions/s/resourceGroups?api-version=1 HTTP/1.1|content-length: +2||{} => BadRequest
GET /subscriptions/s/resourceGroups?api-version=1 HTTP/1.1|content-length: || => BadRequest
GET /subscriptions/s/resourceGroups?api-version=1 HTTP/1.1|content-length: 2x|transfer-encoding: chunked|| => \
BadRequest
GET /none HTTP/1.1|transfer-encoding: chunked|| => LengthRequired
PUT /none HTTP/1.1|| => LengthRequired
POST /none HTTP/1.1|| => LengthRequired
PUT /none HTTP/1.1|Transfer-Encoding: chunked|content-length: 99999999999999999999|| => LengthRequired
PUT /none HTTP/1.1|content-length: 99999999999999999999|| => BodyTooLarge
PUT /none HTTP/1.1|content-length: 4194305|| => BodyTooLarge
PUT /none HTTP/1.1|content-length: 4194304|| => NotFound
PUT /subscriptions/a%2fb/resourceGroups HTTP/1.1|content-length: 4194305|| => BodyTooLarge
GET /subscriptions/a%2fb/resourceGroups HTTP/1.1|| => BadRequest
GET /subscriptions/%FF/resourceGroups HTTP/1.1|| => BadRequest
GET /subscriptions/s/providers/A//x HTTP/1.1|| => BadRequest
GET /subscriptions/%C3%A4/resourceGroups?api-version=1 HTTP/1.1|| => ListGroups ä
GET /subscriptions//resourceGroups HTTP/1.1|| => NotFound
GET /subscriptions/s/resourceGroups/ HTTP/1.1|| => NotFound
GET /subscriptions/s/providers/A/b/x HTTP/1.1|| => NotFound
GET /subscriptions/s/providers/Microsoft.Authorization/%6Cocks/k?api-version=1 HTTP/1.1|| => NotFound
DELETE /none HTTP/1.1|| => NotFound
DELETE /subscriptions/s/resourceGroups HTTP/1.1|| => MethodNotAllowed
get /subscriptions/s/resourceGroups HTTP/1.1|| => MethodNotAllowed
PATCH ~?api-version=1 HTTP/1.1|| => MethodNotAllowed
GET ~@/resume?api-version=1 HTTP/1.1|| => MethodNotAllowed
PUT ~/providers/A/b/x HTTP/1.1|content-length: 2||{} => MethodNotAllowed
GET /subscriptions/s/resourceGroups HTTP/1.1|| => MissingApiVersion
GET /subscriptions/s/resourceGroups?api-version= HTTP/1.1|| => MissingApiVersion
GET /subscriptions/s/resourceGroups?api-version=&api-version=1 HTTP/1.1|| => ListGroups s
GET /subscriptions/s/resourceGroups?Api-Version=1 HTTP/1.1|| => MissingApiVersion
PUT ~ HTTP/1.1|content-length: 1||[ => MissingApiVersion
PUT ~?api-version=1 HTTP/1.1|content-length: 1||[ => BadRequest
PUT ~?api-version=1 HTTP/1.1|content-length: 2||{} => BadRequest
PUT ~?api-version=1 HTTP/1.1|content-length: 14||{\"location\":1} => BadRequest
PUT ~?api-version=1 HTTP/1.1|content-length: 16||{\"location\":1.5} => BadRequest
PUT ~?api-version=1 HTTP/1.1|content-length: 17||{\"location\":\"a\"} => BadRequest
PUT ~?api-version=1 HTTP/1.1|content-length: 16||{\"location\":\"a\"} => PutGroup s g a
PUT ~@?api-version=1 HTTP/1.1|content-length: 37||{\"properties\":{\"mode\":\"Incremental\"}} => BadRequest
PUT ~@?api-version=1 HTTP/1.1|content-length: 42||{\"properties\":{\"mode\":null,\"template\":{}}} => BadRequest
PUT ~@?api-version=1 HTTP/1.1|content-length: 15||{\"template\":{}} => BadRequest
PUT ~^?api-version=1 HTTP/1.1|content-length: 28||{\"properties\":{\"notes\":\"n\"}} => BadRequest
PUT ~^?api-version=1 HTTP/1.1|content-length: 31||{\"properties\":{\"level\":\"None\"}} => BadRequest
PUT ~^?api-version=1 HTTP/1.1|content-length: 48||{\"properties\":{\"level\":\"ReadOnly\",\"notes\":null}} => \
BadRequest
POST ~@/resume?api-version=1 HTTP/1.1|content-length: 1|| => BadRequest
 => the end";

#[test]
fn the_first_refusal_in_the_order_decides(rt: HostRuntime) -> Result<(), Fail> {
    check_rows(rt.alloc(), ROWS)
}

// A head with these first fields, so many fields more and one that fills it up to a length, which comes in pieces of
// this size, and what is answered.
type Row = (&'static str, usize, usize, usize, &'static str);

const CODED: &str = "transfer-encoding: chunked\r\n";

const NO_NUMBER: &str = "content-length: 2x\r\n";

static FIELDS: [Row; 6] = [
    ("", 63, 0, 100, "ListGroups s"),
    ("", 64, 0, 100, "HeadTooLarge"),
    ("", 2_000, 0, 1, "HeadTooLarge"),
    (CODED, 63, 0, 100, "HeadTooLarge"),
    (CODED, 62, 0, 100, "LengthRequired"),
    (NO_NUMBER, 63, 0, 100, "BadRequest"),
];

static LENGTHS: [Row; 4] = [
    ("", 0, 16_384, 1, "ListGroups s"),
    ("", 0, 16_385, 1, "HeadTooLarge"),
    ("", 0, 16_384, 5_000, "ListGroups s"),
    ("", 0, 16_385, 5_000, "HeadTooLarge"),
];

// Adds so many times a part.
fn add_times(bytes: &mut Vec<u8>, part: &[u8], times: usize) -> Result<(), AllocError> {
    for _ in 0..times {
        bytes.extend_from_slice(part)?;
    }
    Ok(())
}

// Adds the start of a head, with these fields and so many more.
fn add_front(bytes: &mut Vec<u8>, first: &str, fields: usize) -> Result<(), AllocError> {
    add_row(
        bytes,
        "GET /subscriptions/s/resourceGroups?api-version=1 HTTP/1.1|",
    )?;
    bytes.extend_from_slice(first.as_bytes())?;
    add_times(bytes, b"a: b\r\n", fields)
}

// Adds the head of a row.
fn add_head(bytes: &mut Vec<u8>, row: &Row) -> Result<(), AllocError> {
    let (first, fields, length, _, _) = *row;
    add_front(bytes, first, fields)?;
    let filling = length.saturating_sub(7).saturating_sub(bytes.len());
    add_row(bytes, "x: ")?;
    add_times(bytes, b"x", filling)?;
    add_row(bytes, "||")
}

fn check_head(alloc: Global, row: &Row) -> Result<(), Fail> {
    let (_, _, _, piece, wanted) = *row;
    let mut bytes = Vec::new(alloc);
    add_head(&mut bytes, row)?;
    check_read(alloc, "a head", (bytes.as_slice(), &[piece], &[]), wanted)
}

fn check_heads(alloc: Global, rows: &[Row]) -> Result<(), Fail> {
    for row in rows {
        check_head(alloc, row)?;
    }
    Ok(())
}

#[test]
fn a_head_has_64_fields_at_most(rt: HostRuntime) -> Result<(), Fail> {
    check_heads(rt.alloc(), &FIELDS)
}

#[test]
fn a_head_has_16384_bytes_at_most(rt: HostRuntime) -> Result<(), Fail> {
    check_heads(rt.alloc(), &LENGTHS)
}

// Two million brackets, as the body of a request.
fn add_brackets(bytes: &mut Vec<u8>) -> Result<(), AllocError> {
    add_row(
        bytes,
        "PUT ~?api-version=1 HTTP/1.1|content-length: 2000000||",
    )?;
    add_times(bytes, b"[[[[[[[[[[", 200_000)
}

#[test]
fn a_body_of_2000000_brackets_is_a_bad_request(rt: HostRuntime) -> Result<(), Fail> {
    let mut bytes = Vec::new(rt.alloc());
    add_brackets(&mut bytes)?;
    check_read(
        rt.alloc(),
        "brackets",
        (bytes.as_slice(), &[100_000], &[]),
        "BadRequest",
    )
}
