//! Times a drive by hand: four seats over 100,000 jobs of a provider that does nothing.
//!
//! Without arguments the program prints what it would time, which is the same every time. With the
//! argument `measure` it drives by the clock.
#![tactic(auto)]

ghost use Rattle.std.specs.Prelude.{◌≡◌, IfOk, vec_len, vec_items};
ghost use Rattle.dealer_trait.specs.Steps.{NoneBegun};
ghost use Rattle.crew_times.specs.Marks.{steps_of};
ghost use Rattle.worker_crew.specs.Driven.{HasNoJobs};

mod idle;
mod mark;
mod row;

use dealer_trait::NoBook;
use idle::Idle;
use row::Row;
use std::alloc::{AllocError, Global};
use std::rt::{Clock, Env};
use std::sync::Wait;
use std::thread::Threads;
use std::time::Instant;
use std::{env, io};
use worker_crew::{Seat, drive};

const JOBS: u32 = 100_000;

const SEATS: u32 = 4;

const RUNS: u32 = 7;

// So many seats of providers that do nothing.
#[tactic(auto, using(worker_crew::proofs::SeatLemmas::fresh))]
fn idle_seats(alloc: Global, count: u32) -> Result<Vec<Seat<Idle>>, AllocError>
    ensures { IfOk result (λ seats. (vec_len seats ≡ count) × HasNoJobs (vec_items seats)) }
{
    let mut seats = Vec::with_capacity(alloc, count as usize)?;
    for number in 0..count {
        seats.push(Seat::new(Idle))?;
    }
    Ok(seats)
}

// The microseconds that a drive over this dealer takes, and whether it came to the dealer's end.
fn timed<R: Clock + Threads + Wait + Sync>(
    rt: &R,
    alloc: Global,
    row: &mut Row,
    seats: &mut Vec<Seat<Idle>>,
) -> io::Result<(u64, bool)>
    requires none { NoneBegun (steps_of row.old.marks.items) }
    requires seats { (vec_len seats.old ≡ 4) × HasNoJobs (vec_items seats.old) }
{
    let start = Instant::now(rt)?;
    let returned = drive(rt, alloc, row, seats, &mut NoBook);
    let elapsed = start.elapsed(rt)?;
    Ok((
        u64::try_from(elapsed.as_micros()).unwrap_or(u64::MAX),
        returned.is_ok(),
    ))
}

// Times one drive over a new dealer.
fn micros<R: Clock + Threads + Wait + Sync>(rt: &R, alloc: Global) -> io::Result<(u64, bool)> {
    let mut row = Row::new(alloc, JOBS)?;
    let mut seats = idle_seats(alloc, SEATS)?;
    timed(rt, alloc, &mut row, &mut seats)
}

// Whether the first word after the program's name is `measure`.
fn is_measured<R: Env + Alloc<A = Global>>(rt: &R) -> Result<bool, AllocError> {
    let Ok(args) = env::args(rt) else {
        return Ok(false);
    };
    let words: Vec<String> = args.skip(1).collect(rt.alloc())?;
    match words.first() {
        Some(word) => Ok(word.as_str() == "measure"),
        None => Ok(false),
    }
}

fn main(rt: HostRuntime) -> io::Result<()> {
    println!(rt; "drive: {SEATS} seats, {JOBS} jobs, {RUNS} runs")?;
    if !is_measured(&rt)? {
        return Ok(());
    }
    for _ in 0..RUNS {
        let (micros, ended) = micros(&rt, rt.alloc())?;
        let said = if ended { "" } else { ", by a fault" };
        println!(rt; "{micros} us{said}")?;
    }
    Ok(())
}
