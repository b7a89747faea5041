//! Times by hand how Bicep sources of up to 4 MB are compiled, beside `serde_json`, which reads and writes the same
//! templates.
//!
//! Without arguments the program prints what it would time, which is the same every time. With the argument `measure`
//! it compiles each source by the clock, several times.
#![tactic(auto)]

mod sources;

use sample_programs::programs::{Outcome, letting_go, outcome_of};
use serde_json::Value;
use sources::{COUNTS, source};
use std::alloc::{AllocError, Global};
use std::io::Print;
use std::rt::{Clock, Env};
use std::time::{Duration, Instant};
use std::{env, io};
use template_parts::Form;

// How often each source is compiled, and its template read and written.
const TURNS: u32 = 5;

fn micros(elapsed: Duration) -> u64 {
    u64::try_from(elapsed.as_micros()).unwrap_or(u64::MAX)
}

// The bytes of a template; none where there is no template.
fn bytes(outcome: &Outcome) -> &[u8] {
    match outcome {
        Outcome::Built(bytes) => bytes.as_slice(),
        _ => &[],
    }
}

// How many bytes there are after `serde_json` read these and wrote them; 0 where they are no JSON.
fn rewritten(alloc: Global, bytes: &[u8]) -> Result<usize, AllocError> {
    match Value::from_slice(alloc, bytes) {
        Ok(value) => {
            let written = value.to_vec(alloc)?.len();
            Ok(letting_go(written, value))
        }
        Err(fault) => Ok(letting_go(0, fault)),
    }
}

// The microseconds of compiling a source, and what it becomes.
fn time_source<R: Clock + Alloc<A = Global>>(rt: &R, source: &str) -> io::Result<(u64, Outcome)> {
    let start = Instant::now(rt)?;
    let outcome = outcome_of(rt.alloc(), source, Form::One)?;
    let elapsed = start.elapsed(rt)?;
    Ok((micros(elapsed), outcome))
}

// The microseconds in which `serde_json` reads a template and writes it, and how many bytes it has.
fn time_template<R: Clock + Alloc<A = Global>>(rt: &R, bytes: &[u8]) -> io::Result<(u64, usize)> {
    let start = Instant::now(rt)?;
    let length = rewritten(rt.alloc(), bytes)?;
    let elapsed = start.elapsed(rt)?;
    Ok((micros(elapsed), length))
}

// Both times, and how many bytes the template has.
fn time<R: Clock + Alloc<A = Global>>(rt: &R, source: &str) -> io::Result<(u64, u64, usize)> {
    let (compiled, outcome) = time_source(rt, source)?;
    let timed = time_template(rt, bytes(&outcome));
    let (read, length) = letting_go(timed, outcome)?;
    Ok((compiled, read, length))
}

// The least times of several turns, and how many bytes the template has.
fn least<R: Clock + Alloc<A = Global>>(rt: &R, source: &str) -> io::Result<(u64, u64, usize)> {
    let mut least = (u64::MAX, u64::MAX, 0);
    for _turn in 0..TURNS {
        let (compiled, read, length) = time(rt, source)?;
        least = (least.0.min(compiled), least.1.min(read), length);
    }
    Ok(least)
}

fn measure<R: Clock + Print + Alloc<A = Global>>(
    rt: &R,
    count: u32,
    source: &str,
) -> io::Result<()> {
    let (compiled, read, length) = least(rt, source)?;
    println!(rt;
        "{count} resources: {length} bytes in {compiled} us; read and written in {read} us"
    )
}

fn list<R: Print>(rt: &R, count: u32, source: &str) -> io::Result<()> {
    println!(rt; "{count} resources: {} bytes", source.len())
}

// What is printed of each source.
#[derive(Clone, Copy)]
enum Wanted {
    // How many bytes it has.
    Size,
    // The times.
    Times,
}

// What is wanted by the words after the program's name: the times, where the first of them is `measure`.
fn wanted_by(words: &[String]) -> Wanted {
    match words.first() {
        Some(word) if word.as_str() == "measure" => Wanted::Times,
        _ => Wanted::Size,
    }
}

// What is wanted by the words that the program is given.
fn asked<R: Env + Alloc<A = Global>>(rt: &R) -> Result<Wanted, AllocError> {
    let Ok(args) = env::args(rt) else {
        return Ok(Wanted::Size);
    };
    let words: Vec<String> = args.skip(1).collect(rt.alloc())?;
    Ok(wanted_by(words.as_slice()))
}

fn show<R: Clock + Print + Alloc<A = Global>>(
    rt: &R,
    wanted: Wanted,
    count: u32,
) -> io::Result<()> {
    let source = source(rt.alloc(), count)?;
    match wanted {
        Wanted::Times => measure(rt, count, source.as_str()),
        Wanted::Size => list(rt, count, source.as_str()),
    }
}

fn main(rt: HostRuntime) -> io::Result<()> {
    let wanted = asked(&rt)?;
    for count in &COUNTS {
        show(&rt, wanted, *count)?;
    }
    Ok(())
}
