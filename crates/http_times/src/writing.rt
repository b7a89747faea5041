// How long replies take to be written.

use arm_edges::MemSink;
use arm_value::{Text, Value};
use deploy_http::{Code, Reply, write_reply};
use std::alloc::{AllocError, Global};
use std::io;
use std::rt::Clock;
use std::time::Instant;

// The bytes of all replies have room in this.
const ROOM: usize = 64_000_000;

/// That a group is not there.
pub fn refusal(alloc: Global) -> Result<Reply, AllocError> {
    Reply::refused(alloc, Code::ResourceGroupNotFound(Text::of(alloc, "g")?))
}

/// That a request was done, with the value of this JSON.
pub fn done(alloc: Global, json: &str) -> Reply {
    match Value::from_json(alloc, json.as_bytes()) {
        Ok(value) => Reply::done(200, value),
        Err(_fault) => Reply::done(200, Value::Null),
    }
}

// How many replies were written, where the reply is written so many times.
fn write(alloc: Global, sink: &mut MemSink, reply: &Reply, count: u64) -> u64 {
    let mut written = 0u64;
    for _ in 0..count {
        if write_reply(alloc, sink, reply, false).is_ok() {
            written = written.saturating_add(1);
        }
    }
    written
}

fn timed<R: Clock + Alloc<A = Global>>(
    rt: &R,
    sink: &mut MemSink,
    reply: &Reply,
    count: u64,
) -> io::Result<(u64, u64)> {
    let start = Instant::now(rt)?;
    let written = write(rt.alloc(), sink, reply, count);
    let elapsed = start.elapsed(rt)?;
    Ok((
        u64::try_from(elapsed.as_micros()).unwrap_or(u64::MAX),
        written,
    ))
}

/// The microseconds in which the reply is written so many times, and how many times it was.
pub fn micros<R: Clock + Alloc<A = Global>>(
    rt: &R,
    reply: &Reply,
    count: u64,
) -> io::Result<(u64, u64)> {
    let alloc = rt.alloc();
    let mut sink = MemSink::new(alloc, Vec::new(alloc), Vec::new(alloc), ROOM)?;
    letting_go(timed(rt, &mut sink, reply, count), sink)
}

/// The answer; the part is dropped.
pub fn letting_go<T: Drop, R>(answer: R, _part: T) -> R {
    answer
}
