//! Times the reading of templates of 4 MB by hand: as a JSON value, and then as a template.
//!
//! Without arguments the program prints what it would time, which is the same every time. With the argument `measure`
//! it reads each template by the clock, by turns.
#![tactic(auto)]

mod shapes;

use arm_template::{Template, read_template};
use arm_value::Value;
use shapes::{SHAPES, Shape, spelled};
use std::alloc::{AllocError, Global};
use std::io::Print;
use std::rt::{Clock, Env};
use std::time::{Duration, Instant};
use std::{env, io};

// How often each template is read.
const TURNS: u32 = 5;

fn micros(elapsed: Duration) -> u64 {
    u64::try_from(elapsed.as_micros()).unwrap_or(u64::MAX)
}

// The template that the value states, if it states one.
fn read(alloc: Global, value: &Value) -> Option<Template> {
    match read_template(alloc, value) {
        Ok(template) => Some(template),
        Err(_fault) => None,
    }
}

// The microseconds of reading the template of the value, and whether there was one.
fn read_timed<R: Clock + Alloc<A = Global>>(rt: &R, value: &Value) -> io::Result<(u64, bool)> {
    let start = Instant::now(rt)?;
    let template = read(rt.alloc(), value);
    let elapsed = start.elapsed(rt)?;
    Ok((micros(elapsed), template.is_some()))
}

// The microseconds of reading the text as a value, and the value as a template, and whether it was one.
fn timed<R: Clock + Alloc<A = Global>>(rt: &R, text: &str) -> io::Result<(u64, u64, bool)> {
    let start = Instant::now(rt)?;
    let parsed = Value::from_json(rt.alloc(), text.as_bytes());
    let elapsed = start.elapsed(rt)?;
    match parsed {
        Ok(value) => {
            let (read, is_read) = read_timed(rt, &value)?;
            Ok((micros(elapsed), read, is_read))
        }
        Err(_fault) => Ok((micros(elapsed), 0, false)),
    }
}

fn none_said(is_read: bool) -> &'static str {
    if is_read { "" } else { ", no template" }
}

fn measure<R: Clock + Print + Alloc<A = Global>>(rt: &R, shape: Shape) -> io::Result<()> {
    let text = spelled(rt.alloc(), shape)?;
    let mut parse = u64::MAX;
    let mut read = u64::MAX;
    let mut is_read = true;
    for _turn in 0..TURNS {
        let (first, second, found) = timed(rt, text.as_str())?;
        parse = parse.min(first);
        read = read.min(second);
        is_read = is_read && found;
    }
    let percent = read.saturating_mul(100) / parse.max(1);
    let words = shape.words();
    let none = none_said(is_read);
    println!(rt;
        "{words}: JSON in {parse} us, then the template in {read} us, {percent} percent{none}"
    )
}

fn list<R: Print + Alloc<A = Global>>(rt: &R, shape: Shape) -> io::Result<()> {
    let text = spelled(rt.alloc(), shape)?;
    let words = shape.words();
    let bytes = text.len();
    println!(rt; "{words}: {bytes} bytes")
}

// Whether the first word after the program's name is `measure`.
fn is_measured<R: Env + Alloc<A = Global>>(rt: &R) -> Result<bool, AllocError> {
    let Ok(args) = env::args(rt) else {
        return Ok(false);
    };
    let words: Vec<String> = args.skip(1).collect(rt.alloc())?;
    match words.first() {
        Some(word) => Ok(word.as_str() == "measure"),
        None => Ok(false),
    }
}

fn main(rt: HostRuntime) -> io::Result<()> {
    let measured = is_measured(&rt)?;
    for shape in &SHAPES {
        if measured {
            measure(&rt, *shape)?;
        } else {
            list(&rt, *shape)?;
        }
    }
    Ok(())
}
