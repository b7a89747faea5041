// How long requests take to be read.

use crate::writing::letting_go;
use arm_edges::MemSource;
use arm_value::Bytes;
use deploy_http::{HttpFault, Routes, next_request, read_request};
use std::alloc::{AllocError, Global};
use std::io;
use std::rt::Clock;
use std::time::Instant;

/// Where the routes come from.
#[derive(Clone, Copy)]
pub enum Made {
    /// They are made once, and kept.
    Once,
    /// They are made for each request.
    Each,
}

// A source of these bytes, so many times over.
fn source_of(alloc: Global, bytes: &[u8], times: u64) -> Result<MemSource, AllocError> {
    let mut all = Vec::new(alloc);
    for _ in 0..times {
        all.extend_from_slice(bytes)?;
    }
    Ok(MemSource::new(all, Vec::new(alloc), Vec::new(alloc)))
}

// Whether a request was read; it is dropped.
fn is_read<T: Drop>(answer: Result<Option<T>, HttpFault>) -> bool {
    match answer {
        Ok(request) => request.is_some(),
        Err(_) => false,
    }
}

// How many requests were read, where so many are asked for by routes that are made for each.
fn read_each(alloc: Global, source: &mut MemSource, count: u64) -> u64 {
    let mut rest = Bytes::from_vec(Vec::new(alloc));
    let mut read = 0u64;
    for _ in 0..count {
        if is_read(read_request(alloc, source, &mut rest)) {
            read = read.saturating_add(1);
        }
    }
    read
}

// The same, by these routes.
fn read_by(alloc: Global, routes: &Routes, source: &mut MemSource, count: u64) -> u64 {
    let mut rest = Bytes::from_vec(Vec::new(alloc));
    let mut read = 0u64;
    for _ in 0..count {
        if is_read(next_request(alloc, routes, source, &mut rest)) {
            read = read.saturating_add(1);
        }
    }
    read
}

// The same, with routes that are made so.
fn read(alloc: Global, made: Made, source: &mut MemSource, count: u64) -> Result<u64, AllocError> {
    match made {
        Made::Once => {
            let routes = Routes::new(alloc)?;
            Ok(read_by(alloc, &routes, source, count))
        }
        Made::Each => Ok(read_each(alloc, source, count)),
    }
}

fn timed<R: Clock + Alloc<A = Global>>(
    rt: &R,
    made: Made,
    source: &mut MemSource,
    count: u64,
) -> io::Result<(u64, u64)> {
    let start = Instant::now(rt)?;
    let read = read(rt.alloc(), made, source, count)?;
    let elapsed = start.elapsed(rt)?;
    Ok((u64::try_from(elapsed.as_micros()).unwrap_or(u64::MAX), read))
}

/// The microseconds in which so many requests are read, and how many were; the bytes have `each` of them.
pub fn micros<R: Clock + Alloc<A = Global>>(
    rt: &R,
    made: Made,
    bytes: &[u8],
    each: u64,
    count: u64,
) -> io::Result<(u64, u64)> {
    let mut source = source_of(rt.alloc(), bytes, count / each.max(1))?;
    letting_go(timed(rt, made, &mut source, count), source)
}
