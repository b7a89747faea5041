// Drives over new dealers, seats and books.

ghost use Rattle.std.specs.Prelude.{◌≡◌, ◌<◌, ◌≤◌, IfOk, length, vec_items, vec_len};
ghost use Rattle.dealer_trait.specs.Steps.{NoneBegun};
ghost use Rattle.worker_crew.specs.Driven.{HasNoJobs};

use crate::jobs::{letting_go, put_jobs, tell};
use driver_fakes::{MemBook, ScriptedDealer};
use provider_trait::{Job, Provider};
use std::alloc::{AllocError, Global};
use std::sync::Wait;
use std::test::Fail;
use std::thread::Threads;
use worker_crew::{DriveFault, Seat, drive};

/// A drive that was run, with what it returned.
#[derive(Drop)]
pub struct Driven<P: Provider> {
    pub dealer: ScriptedDealer,
    pub seats: Vec<Seat<P>>,
    pub returned: Result<(), DriveFault>,
}

// Seats with these providers.
#[tactic(auto, using(worker_crew::proofs::SeatLemmas::fresh))]
fn seats_of<P: Provider>(alloc: Global, providers: Vec<P>) -> Result<Vec<Seat<P>>, Fail>
    ensures { IfOk result (λ seats. HasNoJobs (vec_items seats)) }
{
    let mut seats = Vec::new(alloc);
    for provider in providers {
        seats.push(Seat::new(provider))?;
    }
    Ok(seats)
}

// A dealer of these jobs, of which the one at each place needs the tasks listed there.
#[tactic(auto, using(crate::proofs::FreshLemmas::fresh))]
fn dealer_of(alloc: Global, jobs: Vec<Job>, needs: Vec<Vec<u32>>) -> Result<ScriptedDealer, Fail>
    ensures { IfOk result (λ d. NoneBegun d.steps.items) }
{
    if jobs.len() > 10_000 {
        return letting_go(Err(Fail::from("too many jobs")), (jobs, needs));
    }
    Ok(ScriptedDealer::new(alloc, jobs, needs)?)
}

// Drives these seats, if they are as many as a drive of a test may have.
fn drive_some<R: Threads + Wait + Sync, P: Provider>(
    rt: &R,
    alloc: Global,
    dealer: &mut ScriptedDealer,
    seats: &mut Vec<Seat<P>>,
    book: &mut MemBook,
) -> Result<Result<(), DriveFault>, Fail>
    requires none { NoneBegun dealer.old.steps.items }
    requires seats { HasNoJobs (vec_items seats.old) }
{
    if seats.is_empty() || seats.len() > 1000 {
        return Err(Fail::from("too few or too many seats"));
    }
    Ok(drive(rt, alloc, dealer, seats, book))
}

// A drive that was run, or why none was.
fn made_of<P: Provider>(
    dealer: ScriptedDealer,
    seats: Vec<Seat<P>>,
    returned: Result<Result<(), DriveFault>, Fail>,
) -> Result<Driven<P>, Fail> {
    match returned {
        Ok(returned) => Ok(Driven {
            dealer,
            seats,
            returned,
        }),
        Err(fail) => letting_go(Err(fail), (dealer, seats)),
    }
}

// Drives new seats with these providers over the jobs of the dealer.
fn drive_over<R: Threads + Wait + Sync, P: Provider>(
    rt: &R,
    alloc: Global,
    mut dealer: ScriptedDealer,
    mut book: MemBook,
    providers: Vec<P>,
) -> Result<Driven<P>, Fail>
    requires { NoneBegun dealer.steps.items }
{
    match seats_of(alloc, providers) {
        Ok(mut seats) => {
            let returned = drive_some(rt, alloc, &mut dealer, &mut seats, &mut book);
            made_of(dealer, seats, letting_go(returned, book))
        }
        Err(fail) => letting_go(Err(fail), (dealer, book)),
    }
}

// So many puts with these needs.
fn dealer_of_puts(alloc: Global, jobs: u32, needs: Vec<Vec<u32>>) -> Result<ScriptedDealer, Fail>
    ensures { IfOk result (λ d. NoneBegun d.steps.items) }
{
    match put_jobs(alloc, jobs) {
        Ok(jobs) => dealer_of(alloc, jobs, needs),
        Err(fail) => letting_go(Err(fail), needs),
    }
}

/// Drives new seats with these providers over so many puts with these needs. The notes of these numbers fail.
pub fn drive_new<R: Threads + Wait + Sync, P: Provider>(
    rt: &R,
    alloc: Global,
    (jobs, needs): (u32, Vec<Vec<u32>>),
    providers: Vec<P>,
    fails: &[u64],
) -> Result<Driven<P>, Fail> {
    match book_of(alloc, fails) {
        Ok(book) => match dealer_of_puts(alloc, jobs, needs) {
            Ok(dealer) => drive_over(rt, alloc, dealer, book, providers),
            Err(fail) => letting_go(Err(fail), (book, providers)),
        },
        Err(_) => letting_go(Err(Fail::from("no book")), (needs, providers)),
    }
}

// A book with room for 2,000 notes, of which those of these numbers fail.
fn book_of(alloc: Global, fails: &[u64]) -> Result<MemBook, AllocError> {
    MemBook::new(alloc, 2_000_000, Vec::from_slice(alloc, fails)?)
}

// The steps of a drive, and after them what it returned.
fn told<P: Provider>(alloc: Global, driven: &Driven<P>) -> Result<String, AllocError> {
    let mut text = String::new(alloc);
    tell(&mut text, driven.dealer.steps())?;
    match &driven.returned {
        Ok(()) => text.push_str("well")?,
        Err(fault) => write!(text, "{fault}")?,
    }
    Ok(text)
}

/// The steps of such a drive, each in a line, and after them what it returned.
pub fn steps_of<R: Threads + Wait + Sync, P: Provider>(
    rt: &R,
    alloc: Global,
    puts: (u32, Vec<Vec<u32>>),
    providers: Vec<P>,
    fails: &[u64],
) -> Result<String, Fail> {
    let driven = drive_new(rt, alloc, puts, providers, fails)?;
    Ok(letting_go(told(alloc, &driven), driven)?)
}
