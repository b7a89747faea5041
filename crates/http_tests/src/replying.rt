// The bytes of replies.
use crate::writing::{compare, letting_go, text_of};
use arm_edges::MemSink;
use arm_value::Text;
use deploy_http::{Code, Reply, WriteFault, write_reply};
use std::alloc::{AllocError, Global};
use std::test::Fail;

const NO_GROUP: &str = "\
HTTP/1.1 404 Not Found\r\ncontent-type: application/json\r\ncontent-length: 56\r\n\r\n\
{\"error\":{\"code\":\"ResourceGroupNotFound\",\"message\":\"x\"}}";

const TOO_LARGE: &str = "\
HTTP/1.1 431 Request Header Fields Too Large\r\ncontent-type: application/json\r\ncontent-length: 58\r\n\
connection: close\r\n\r\n\
{\"error\":{\"code\":\"HeadTooLarge\",\"message\":\"HeadTooLarge\"}}";

// That the group `x` is not there.
fn no_group(alloc: Global) -> Result<Reply, AllocError> {
    Reply::refused(alloc, Code::ResourceGroupNotFound(Text::of(alloc, "x")?))
}

// A sink with room for the replies, which takes so many bytes at a time. The writes of these numbers fail.
fn sink_of(alloc: Global, cuts: &[usize], fails: &[u64]) -> Result<MemSink, AllocError> {
    let cuts = Vec::from_slice(alloc, cuts)?;
    let fails = Vec::from_slice(alloc, fails)?;
    MemSink::new(alloc, cuts, fails, 1_000)
}

// What a write is to answer, and what is written then.
type Written<'a> = (Result<(), WriteFault>, &'a str);

// Compares what a write of the reply answers, and the bytes that are written.
fn check_written(
    alloc: Global,
    reply: &Reply,
    close: bool,
    sink: MemSink,
    wanted: Written<'_>,
) -> Result<(), Fail> {
    let mut sink = sink;
    let answer = write_reply(alloc, &mut sink, reply, close);
    letting_go(check_both((answer, text_of(sink.as_slice())), wanted), sink)
}

fn check_both(found: Written<'_>, wanted: Written<'_>) -> Result<(), Fail> {
    if found.0 != wanted.0 {
        return Err(Fail::from("another answer"));
    }
    compare("the reply", found.1, wanted.1)
}

fn check_reply(alloc: Global, reply: &Reply, close: bool, wanted: &str) -> Result<(), Fail> {
    let sink = sink_of(alloc, &[3], &[])?;
    check_written(alloc, reply, close, sink, (Ok(()), wanted))
}

#[test]
fn a_group_that_is_not_there(rt: HostRuntime) -> Result<(), Fail> {
    let reply = no_group(rt.alloc())?;
    letting_go(check_reply(rt.alloc(), &reply, false, NO_GROUP), reply)
}

#[test]
fn a_head_that_is_too_large(rt: HostRuntime) -> Result<(), Fail> {
    let reply = Reply::refused(rt.alloc(), Code::HeadTooLarge)?;
    letting_go(check_reply(rt.alloc(), &reply, true, TOO_LARGE), reply)
}

// Compares what is written where the write of this number fails. Each write takes ten bytes.
fn check_failure(alloc: Global, reply: &Reply, number: usize) -> Result<(), Fail> {
    let sink = sink_of(alloc, &[10], &[number as u64])?;
    let beginning = NO_GROUP.get(..number.saturating_mul(10)).unwrap_or("none");
    check_written(
        alloc,
        reply,
        false,
        sink,
        (Err(WriteFault::Fault), beginning),
    )
}

// The reply has 134 bytes, so it takes 14 writes.
fn check_failures(alloc: Global, reply: &Reply) -> Result<(), Fail> {
    for number in 0..14 {
        check_failure(alloc, reply, number)?;
    }
    let sink = sink_of(alloc, &[10], &[14])?;
    check_written(alloc, reply, false, sink, (Ok(()), NO_GROUP))
}

#[test]
fn a_write_that_fails_is_reported(rt: HostRuntime) -> Result<(), Fail> {
    let reply = no_group(rt.alloc())?;
    letting_go(check_failures(rt.alloc(), &reply), reply)
}
