//! Times the template functions by hand: each at a size n and at 2n, with the ratio.
//!
//! Without arguments the program prints what it would time, which is the same every time. With the
//! argument `measure` it calls each function by the clock.
#![tactic(auto)]

mod cases;
mod shapes;

use arm_functions::call;
use arm_value::Value;
use cases::{CASES, Case};
use shapes::{Shape, argument};
use std::alloc::{AllocError, Global};
use std::io::Print;
use std::rt::{Clock, Env};
use std::time::Instant;
use std::{env, io};

// How often each call is timed at each size, at least and at most. Above the least number it is timed again until so
// many seconds have passed.
const LEAST_TURNS: u32 = 11;

const MOST_TURNS: u32 = 101;

const SECONDS: u64 = 4;

// How often this line is in a text that is built before each call, so that the processor's caches have little of the
// arguments: 64 MB, more than they hold.
const COLD: u64 = 1_000_000;

const LINE: &str = "cccccccccccccccccccccccccccccccccccccccccccccccccccccccccccccccc";

// The arguments of these shapes at size n.
fn arguments(alloc: Global, shapes: &[Shape], n: u64) -> Result<Vec<Value>, AllocError> {
    let mut args = Vec::new(alloc);
    for shape in shapes {
        args.push(argument(alloc, *shape, n)?)?;
    }
    Ok(args)
}

// The arguments of a case at size n.
fn arguments_of(alloc: Global, shapes: &[Shape], n: u64) -> Result<Vec<Value>, AllocError> {
    match shapes {
        [Shape::Each, shape] => match argument(alloc, *shape, n)? {
            Value::Array(items) => Ok(items.into_vec(alloc)),
            value => Ok(vec![in alloc; value]?),
        },
        shapes => arguments(alloc, shapes, n),
    }
}

// One call of the function: whether it gave a value.
fn has_value(alloc: Global, name: &str, args: &[Value]) -> bool {
    match call(alloc, name, args) {
        Ok(Some(_value)) => true,
        _ => false,
    }
}

// The nanoseconds of one call of the function at size n, and whether it gave a value.
fn nanos<R: Clock + Alloc<A = Global>>(rt: &R, case: &Case, n: u64) -> io::Result<(u64, bool)> {
    let args = arguments_of(rt.alloc(), case.2, n)?;
    let _cold = argument(rt.alloc(), Shape::Text("", LINE, ""), COLD)?;
    let start = Instant::now(rt)?;
    let found = has_value(rt.alloc(), case.0, args.as_slice());
    let elapsed = start.elapsed(rt)?;
    Ok((u64::try_from(elapsed.as_nanos()).unwrap_or(u64::MAX), found))
}

fn none_said(found: bool) -> &'static str {
    if found { "" } else { " no value" }
}

// The least nanoseconds of some calls of the function at size n and of as many at 2n, by turns, and whether all of
// them gave a value.
fn least<R: Clock + Alloc<A = Global>>(rt: &R, case: &Case) -> io::Result<(u64, u64, bool)> {
    let mut once = u64::MAX;
    let mut twice = u64::MAX;
    let mut found = true;
    let start = Instant::now(rt)?;
    for turn in 0..MOST_TURNS {
        if turn >= LEAST_TURNS && start.elapsed(rt)?.as_secs() >= SECONDS {
            break;
        }
        let (smaller, is_found) = nanos(rt, case, case.3)?;
        let (larger, is_larger_found) = nanos(rt, case, case.3.saturating_mul(2))?;
        once = once.min(smaller);
        twice = twice.min(larger);
        found = found && is_found && is_larger_found;
    }
    Ok((once, twice, found))
}

fn measure<R: Clock + Print + Alloc<A = Global>>(rt: &R, case: &Case) -> io::Result<()> {
    let (name, words, _, n) = case;
    let (once, twice, found) = least(rt, case)?;
    let percent = twice.saturating_mul(100) / once.max(1);
    let none = none_said(found);
    println!(rt; "{name}, {words}: n {n} in {once} ns, 2n in {twice} ns, {percent} percent{none}")
}

fn list<R: Print>(rt: &R, case: &Case) -> io::Result<()> {
    let (name, words, _, n) = case;
    println!(rt; "{name}, {words}: n {n}")
}

// Whether the first word after the program's name is `measure`.
fn is_measured<R: Env + Alloc<A = Global>>(rt: &R) -> Result<bool, AllocError> {
    let Ok(args) = env::args(rt) else {
        return Ok(false);
    };
    let words: Vec<String> = args.skip(1).collect(rt.alloc())?;
    match words.first() {
        Some(word) => Ok(word.as_str() == "measure"),
        None => Ok(false),
    }
}

fn main(rt: HostRuntime) -> io::Result<()> {
    let measured = is_measured(&rt)?;
    for case in &CASES {
        if measured {
            measure(&rt, case)?;
        } else {
            list(&rt, case)?;
        }
    }
    Ok(())
}
