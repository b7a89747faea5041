// Drives that end by a fault.

use crate::fresh::steps_of;
use crate::jobs::{compare, first, one, plain};
use crate::short::Short;
use provider_trait::{Script, Step};
use std::alloc::Global;
use std::sync::Wait;
use std::test::Fail;
use std::thread::Threads;

// The script of a seat, which fails at its first call where the seat is this one.
fn script_of(alloc: Global, seat: u32, faulty: u32) -> Result<Script, Fail> {
    if seat == faulty {
        return first(alloc, Step::Fail);
    }
    Ok(plain(alloc))
}

// So many scripts, of which the one at this place fails at its first call.
fn with_fault(alloc: Global, seats: u32, faulty: u32) -> Result<Vec<Script>, Fail> {
    let mut scripts = Vec::new(alloc);
    for seat in 0..seats {
        scripts.push(script_of(alloc, seat, faulty)?)?;
    }
    Ok(scripts)
}

// Fails unless the seat of this number is named where it fails, of so many seats over four jobs.
fn check_fault<R: Threads + Wait + Sync>(
    rt: &R,
    alloc: Global,
    seats: u32,
    faulty: u32,
) -> Result<(), Fail> {
    let scripts = with_fault(alloc, seats, faulty)?;
    let steps = steps_of(rt, alloc, (4, Vec::new(alloc)), scripts, &[])?;
    let wanted = format!(in alloc; "\nthe provider of seat {faulty} failed")?;
    check_end(steps.as_str(), wanted.as_str())
}

fn check_end(steps: &str, wanted: &str) -> Result<(), Fail> {
    if steps.ends_with(wanted) {
        return Ok(());
    }
    compare("fault", steps, wanted)
}

#[test]
fn the_seat_that_failed_is_named(rt: HostRuntime) -> Result<(), Fail> {
    for seats in 1..5 {
        for faulty in 0..seats {
            check_fault(&rt, rt.alloc(), seats, faulty)?;
        }
    }
    Ok(())
}

// Compares the steps of one seat over three jobs, and what is returned, where the note of this number fails.
fn check_note<R: Threads + Wait + Sync>(
    rt: &R,
    alloc: Global,
    note: u64,
    wanted: &str,
) -> Result<(), Fail> {
    let scripts = one(alloc, plain(alloc))?;
    let steps = steps_of(rt, alloc, (3, Vec::new(alloc)), scripts, &[note])?;
    compare("note", steps.as_str(), wanted)
}

#[test]
fn a_note_that_fails_is_a_back_and_ends_the_drive(rt: HostRuntime) -> Result<(), Fail> {
    let (first, second) = (
        "begin 0 0\nback 0\nthe disk failed",
        "begin 0 0\nstored 0\nbegin 1 0\nback 1\nthe disk failed",
    );
    let third = "begin 0 0\nstored 0\nbegin 1 0\nstored 1\nbegin 2 0\nback 2\nthe disk failed";
    check_note(&rt, rt.alloc(), 0, first)?;
    check_note(&rt, rt.alloc(), 1, second)?;
    check_note(&rt, rt.alloc(), 2, third)
}

#[test]
fn all_jobs_are_done_where_no_note_fails(rt: HostRuntime) -> Result<(), Fail> {
    let wanted = "begin 0 0\nstored 0\nbegin 1 0\nstored 1\nbegin 2 0\nstored 2\nwell";
    check_note(&rt, rt.alloc(), 3, wanted)
}

// Compares the steps of one seat over three jobs, and what is returned, where its call of this number is out of
// memory.
fn check_call<R: Threads + Wait + Sync>(
    rt: &R,
    alloc: Global,
    call: u32,
    wanted: &str,
) -> Result<(), Fail> {
    let seats = one(alloc, Short { left: call })?;
    let steps = steps_of(rt, alloc, (3, Vec::new(alloc)), seats, &[])?;
    compare("call", steps.as_str(), wanted)
}

#[test]
fn a_call_out_of_memory_is_a_back_and_ends_the_drive(rt: HostRuntime) -> Result<(), Fail> {
    let (first, second) = (
        "begin 0 0\nback 0\nout of memory",
        "begin 0 0\nstored 0\nbegin 1 0\nback 1\nout of memory",
    );
    let third = "begin 0 0\nstored 0\nbegin 1 0\nstored 1\nbegin 2 0\nback 2\nout of memory";
    check_call(&rt, rt.alloc(), 0, first)?;
    check_call(&rt, rt.alloc(), 1, second)?;
    check_call(&rt, rt.alloc(), 2, third)
}
