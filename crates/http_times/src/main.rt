//! Times requests and replies over HTTP by hand: how many are read and written in a second, over memory.
//!
//! Without arguments the program prints what it would time, which is the same every time. With the argument `measure`
//! it reads and writes by the clock.
#![tactic(auto)]

mod reading;
mod requests;
mod writing;

use reading::Made;
use requests::{deployment, listed, mix};
use std::alloc::{AllocError, Global};
use std::io::Print;
use std::rt::{Clock, Env};
use std::{env, io};
use writing::{done, letting_go, refusal};

// How often each case is timed.
const RUNS: u32 = 7;

// How many small requests are read, and how many small replies are written.
const MANY: u64 = 100_000;

// How many deployments are read, and how many lists are written.
const FEW: u64 = 2_000;

// What is timed.
#[derive(Clone, Copy)]
enum Case {
    MixOnce,
    MixEach,
    Deployment,
    Refusal,
    List,
}

// A case, how many are read or written, and the case in words.
type Timed = (Case, u64, &'static str);

static CASES: [Timed; 5] = [
    (Case::MixOnce, MANY, "read, a mix of 5, routes made once"),
    (Case::MixEach, MANY, "read, a mix of 5, routes made each"),
    (Case::Deployment, FEW, "read, 64 resources to deploy"),
    (Case::Refusal, MANY, "write, a refusal"),
    (Case::List, FEW, "write, 64 resources"),
];

// The microseconds of one run of the case, and how many were read or written.
fn micros<R: Clock + Alloc<A = Global>>(rt: &R, case: Case, count: u64) -> io::Result<(u64, u64)> {
    match case {
        Case::MixOnce => mix_micros(rt, Made::Once, count),
        Case::MixEach => mix_micros(rt, Made::Each, count),
        Case::Deployment => deployment_micros(rt, count),
        Case::Refusal => refusal_micros(rt, count),
        Case::List => list_micros(rt, count),
    }
}

fn mix_micros<R: Clock + Alloc<A = Global>>(
    rt: &R,
    made: Made,
    count: u64,
) -> io::Result<(u64, u64)> {
    let bytes = mix(rt.alloc())?;
    reading::micros(rt, made, bytes.as_bytes(), 5, count)
}

fn deployment_micros<R: Clock + Alloc<A = Global>>(rt: &R, count: u64) -> io::Result<(u64, u64)> {
    let bytes = deployment(rt.alloc())?;
    reading::micros(rt, Made::Once, bytes.as_bytes(), 1, count)
}

fn refusal_micros<R: Clock + Alloc<A = Global>>(rt: &R, count: u64) -> io::Result<(u64, u64)> {
    let reply = refusal(rt.alloc())?;
    letting_go(writing::micros(rt, &reply, count), reply)
}

fn list_micros<R: Clock + Alloc<A = Global>>(rt: &R, count: u64) -> io::Result<(u64, u64)> {
    let json = listed(rt.alloc())?;
    let reply = done(rt.alloc(), json.as_str());
    letting_go(writing::micros(rt, &reply, count), reply)
}

// The least microseconds of some runs of the case, and whether each run read or wrote all.
fn least<R: Clock + Alloc<A = Global>>(rt: &R, case: Case, count: u64) -> io::Result<(u64, bool)> {
    let mut least = u64::MAX;
    let mut whole = true;
    for _ in 0..RUNS {
        let (time, done) = micros(rt, case, count)?;
        least = least.min(time);
        whole = whole && done == count;
    }
    Ok((least, whole))
}

fn measure<R: Clock + Print + Alloc<A = Global>>(rt: &R, timed: &Timed) -> io::Result<()> {
    let (case, count, words) = timed;
    let (micros, whole) = least(rt, *case, *count)?;
    let rate = count.saturating_mul(1_000_000) / micros.max(1);
    let said = if whole { "" } else { ", not all" };
    println!(rt; "{words}: {count} in {micros} us, {rate} a second{said}")
}

fn list<R: Print>(rt: &R, timed: &Timed) -> io::Result<()> {
    let (_, count, words) = timed;
    println!(rt; "{words}: {count}")
}

// Whether the first word after the program's name is `measure`.
fn is_measured<R: Env + Alloc<A = Global>>(rt: &R) -> Result<bool, AllocError> {
    let Ok(args) = env::args(rt) else {
        return Ok(false);
    };
    let words: Vec<String> = args.skip(1).collect(rt.alloc())?;
    match words.first() {
        Some(word) => Ok(word.as_str() == "measure"),
        None => Ok(false),
    }
}

fn main(rt: HostRuntime) -> io::Result<()> {
    let measured = is_measured(&rt)?;
    for timed in &CASES {
        if measured {
            measure(&rt, timed)?;
        } else {
            list(&rt, timed)?;
        }
    }
    Ok(())
}
