// Requests that come in pieces.
use crate::showing::{check_read, say_next, say_next_by, source_of};
use crate::writing::{bytes_of, compare, letting_go};
use arm_edges::MemSource;
use arm_value::Bytes;
use deploy_http::Routes;
use std::alloc::{AllocError, Global};
use std::test::Fail;

const REQUEST: &str =
    "GET /subscriptions/s/resourceGroups/x?api-version=2021-04-01 HTTP/1.1|host: a||";

// Three requests, one right after the other, and an empty line.
const THREE: &str = "\
PUT ~?api-version=1 HTTP/1.1|content-length: 17||{\"location\":\"a\" }\
GET /subscriptions/s/resourceGroups?api-version=1 HTTP/1.1||\
DELETE ~?api-version=1 HTTP/1.0|||";

// How the bytes of a request come.
#[derive(Clone, Copy)]
enum Cut {
    // In pieces of a size.
    Pieces,
    // In two, the first of a length.
    Split,
    // A beginning of a length alone, in pieces of seven.
    Beginning,
    // In pieces of ten, and the read of a number fails.
    Failing,
}

// Compares what is read of the request where its bytes come so, by a number.
fn check_cut(alloc: Global, bytes: &[u8], cut: Cut, number: usize) -> Result<(), Fail> {
    let group = "GetGroup s x";
    match cut {
        Cut::Pieces => check_read(alloc, "pieces", (bytes, &[number], &[]), group),
        Cut::Split => check_read(alloc, "split", (bytes, &[number, 1_000], &[]), group),
        Cut::Beginning => check_beginning(alloc, bytes, number),
        Cut::Failing => check_read(
            alloc,
            "failing",
            (bytes, &[10], &[number as u64]),
            "ReadFault",
        ),
    }
}

fn check_beginning(alloc: Global, bytes: &[u8], length: usize) -> Result<(), Fail> {
    match bytes.get(..length) {
        Some(beginning) => check_read(alloc, "beginning", (beginning, &[7], &[]), "BadRequest"),
        None => Err(Fail::from("no beginning")),
    }
}

// Compares what is read of the request by each number from 1, or from 0 where a read fails.
fn check_cuts(alloc: Global, cut: Cut, first: usize, end: usize) -> Result<(), Fail> {
    let bytes = bytes_of(alloc, REQUEST)?;
    for number in first..end {
        check_cut(alloc, bytes.as_slice(), cut, number)?;
    }
    Ok(())
}

// The request has 82 bytes.
#[test]
fn pieces_do_not_matter(rt: HostRuntime) -> Result<(), Fail> {
    check_cuts(rt.alloc(), Cut::Pieces, 1, 83)?;
    check_cuts(rt.alloc(), Cut::Split, 1, 82)
}

#[test]
fn a_beginning_is_a_bad_request(rt: HostRuntime) -> Result<(), Fail> {
    check_cuts(rt.alloc(), Cut::Beginning, 1, 82)
}

#[test]
fn a_read_that_fails_is_reported(rt: HostRuntime) -> Result<(), Fail> {
    check_cuts(rt.alloc(), Cut::Failing, 0, 9)
}

// Adds the answer to the next request. Every second one is read by routes that are kept.
fn say_one(
    out: &mut String,
    alloc: Global,
    routes: &Routes,
    source: &mut MemSource,
    rest: &mut Bytes,
    number: u32,
) -> Result<(), AllocError> {
    if number % 2 == 0 {
        say_next_by(out, alloc, routes, source, rest)
    } else {
        say_next(out, alloc, source, rest)
    }
}

// Adds the answers to four requests of the source, one after the other.
fn say_four(
    out: &mut String,
    alloc: Global,
    routes: &Routes,
    source: &mut MemSource,
) -> Result<(), AllocError> {
    let mut rest = Bytes::from_vec(Vec::new(alloc));
    for number in 0..4 {
        say_one(out, alloc, routes, source, &mut rest, number)?;
        out.push_str(";")?;
    }
    Ok(())
}

const ANSWERS: &str = "PutGroup s g a;ListGroups s;DeleteGroup s g, close;BadRequest;";

// Compares the answers to the requests of these bytes, which come in pieces of this size.
fn check_answers(alloc: Global, routes: &Routes, bytes: &[u8], piece: usize) -> Result<(), Fail> {
    let mut source = source_of(alloc, bytes, &[piece], &[])?;
    let mut answers = String::new(alloc);
    letting_go(say_four(&mut answers, alloc, routes, &mut source), source)?;
    compare("answers", answers.as_str(), ANSWERS)
}

fn check_pieces(alloc: Global, routes: &Routes) -> Result<(), Fail> {
    let bytes = bytes_of(alloc, THREE)?;
    for piece in 1..bytes.len() {
        check_answers(alloc, routes, bytes.as_slice(), piece)?;
    }
    check_answers(alloc, routes, bytes.as_slice(), bytes.len())
}

#[test]
fn requests_follow_one_another(rt: HostRuntime) -> Result<(), Fail> {
    let routes = Routes::new(rt.alloc())?;
    letting_go(check_pieces(rt.alloc(), &routes), routes)
}
