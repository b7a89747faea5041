// Rounds of calls.

use crate::jobs::{compare, first, letting_go, plain, put_job, two, word};
use crate::waiting::{SHORT, Waiting};
use arm_value::Text;
use driver_fakes::Pairing;
use provider_trait::{Call, Job, Provider, Script, Step};
use seat_calls::{Seat, run_round};
use std::alloc::{AllocError, Global};
use std::mem;
use std::test::Fail;
use std::thread::Threads;

// A seat with the put of this task.
fn busy<P: Provider>(alloc: Global, provider: P, task: u32) -> Result<Seat<P>, Fail> {
    match put_job(alloc, task) {
        Ok(job) => Ok(Seat {
            provider,
            job: Some(job),
            got: None,
        }),
        Err(fail) => letting_go(Err(fail), provider),
    }
}

// What the last call of a seat returned.
fn got<P: Provider>(seat: &Seat<P>) -> &str {
    match &seat.got {
        Some(got) => word(got),
        None => "none",
    }
}

// Three seats: one whose script stores, one without a job, and one whose script refuses.
fn three(alloc: Global) -> Result<Vec<Seat<Script>>, Fail> {
    let storing = busy(alloc, plain(alloc), 0)?;
    let idle = Seat::new(plain(alloc));
    match refusing(alloc) {
        Ok(refusing) => Ok(three_of(alloc, (storing, idle), refusing)?),
        Err(fail) => letting_go(Err(fail), (storing, idle)),
    }
}

fn refusing(alloc: Global) -> Result<Seat<Script>, Fail> {
    let quota = Step::Refuse(Text::of(alloc, "Quota")?);
    busy(alloc, first(alloc, quota)?, 2)
}

fn three_of<T: Drop>(alloc: Global, pair: (T, T), last: T) -> Result<Vec<T>, AllocError> {
    let mut list = two(alloc, pair)?;
    list.push(last)?;
    Ok(list)
}

// Adds what the last call of each seat returned, and how many calls its script has had.
fn tell_seats(text: &mut String, seats: &[Seat<Script>]) -> Result<(), AllocError> {
    for seat in seats {
        let (got, calls) = (got(seat), seat.provider.calls().len());
        write!(text, "{got} {calls}\n")?;
    }
    Ok(())
}

// Compares what two rounds leave with the lines.
fn check_rounds<R: Threads + Sync>(
    rt: &R,
    alloc: Global,
    seats: &mut [Seat<Script>],
    wanted: &str,
) -> Result<(), Fail> {
    let mut text = String::new(alloc);
    for _ in 0..2 {
        run_round(rt, alloc, seats);
        tell_seats(&mut text, seats)?;
    }
    compare("seats", text.as_str(), wanted)
}

const LEFT: &str = "stored 1\nnone 0\nQuota 1\nstored 2\nnone 0\nstored 2\n";

#[test]
fn each_seat_with_a_job_makes_one_call(rt: HostRuntime) -> Result<(), Fail> {
    let mut seats = three(rt.alloc())?;
    let checked = check_rounds(&rt, rt.alloc(), seats.as_mut_slice(), LEFT);
    letting_go(checked, seats)
}

#[test]
fn a_round_without_seats_does_nothing(rt: HostRuntime) {
    let mut seats: Vec<Seat<Script>> = Vec::new(rt.alloc());
    run_round(&rt, rt.alloc(), seats.as_mut_slice());
}

// Two seats of these providers, each with a job.
fn two_busy<P: Provider>(alloc: Global, pair: (P, P)) -> Result<Vec<Seat<P>>, Fail> {
    let (one, other) = pair;
    match busy(alloc, one, 0) {
        Ok(first) => match busy(alloc, other, 1) {
            Ok(second) => Ok(two(alloc, (first, second))?),
            Err(fail) => letting_go(Err(fail), first),
        },
        Err(fail) => letting_go(Err(fail), other),
    }
}

fn check_both<P: Provider>(one: &Seat<P>, other: &Seat<P>, wanted: &str) -> Result<(), Fail> {
    compare("one", got(one), wanted)?;
    compare("other", got(other), "stored")
}

// Compares what a round of one call each gives to two seats.
fn check_two<R: Threads + Sync, P: Provider>(
    rt: &R,
    alloc: Global,
    seats: &mut [Seat<P>],
    wanted: &str,
) -> Result<(), Fail> {
    run_round(rt, alloc, seats);
    match seats {
        [one, other] => check_both(one, other, wanted),
        _ => Err(Fail::from("not two seats")),
    }
}

// Compares what a round of one call each gives to two seats of these providers.
fn check_pair<R: Threads + Sync, P: Provider>(
    rt: &R,
    alloc: Global,
    pair: (P, P),
    wanted: &str,
) -> Result<(), Fail> {
    let mut seats = two_busy(alloc, pair)?;
    letting_go(check_two(rt, alloc, seats.as_mut_slice(), wanted), seats)
}

#[test]
fn the_calls_of_a_round_overlap(rt: HostRuntime) -> Result<(), Fail> {
    check_pair(&rt, rt.alloc(), Pairing::pair(rt.alloc())?, "stored")
}

// The first provider waits for two calls of the other.
#[test]
fn a_round_waits_for_all_its_calls(rt: HostRuntime) -> Result<(), Fail> {
    let pair = Waiting::pair(rt.alloc(), 2, SHORT)?;
    check_pair(&rt, rt.alloc(), pair, "Alone")
}

// Gives a seat a job.
fn give<P: Provider>(seat: &mut Seat<P>, job: Job) {
    let old = mem::replace(&mut seat.job, Some(job));
    letting_go((), old)
}

// Gives each of these seats a put, of tasks from this number on.
fn busy_again(alloc: Global, seats: &mut [Seat<Script>], from: u32) -> Result<(), Fail> {
    let mut task = from;
    for seat in seats {
        give(seat, put_job(alloc, task)?);
        task = task.saturating_add(1);
    }
    Ok(())
}

// Four seats without jobs.
fn four(alloc: Global) -> Result<Vec<Seat<Script>>, Fail> {
    let mut seats = Vec::new(alloc);
    for _ in 0..4 {
        seats.push(Seat::new(plain(alloc)))?;
    }
    Ok(seats)
}

// Whether the calls are of the tasks from this number on, each four after the last.
fn are_every_fourth(calls: &[Call], from: u32) -> bool {
    let mut wanted = from;
    for call in calls {
        if call.job.task() != wanted {
            return false;
        }
        wanted = wanted.saturating_add(4);
    }
    true
}

// Whether each of the seats has made 25 calls, of every fourth task from its number on.
fn all_are_every_fourth(seats: &[Seat<Script>]) -> bool {
    let mut first = 0;
    for seat in seats {
        let calls = seat.provider.calls();
        if calls.len() != 25 || !are_every_fourth(calls, first) {
            return false;
        }
        first = first.saturating_add(1);
    }
    true
}

// Runs 25 rounds of four seats, each with a job.
fn run_rounds<R: Threads + Sync>(
    rt: &R,
    alloc: Global,
    seats: &mut [Seat<Script>],
) -> Result<(), Fail> {
    for round in 0..25 {
        busy_again(alloc, seats, round * 4)?;
        run_round(rt, alloc, seats);
    }
    if all_are_every_fourth(seats) {
        Ok(())
    } else {
        Err(Fail::from("other calls"))
    }
}

#[test]
fn each_seat_makes_the_calls_of_its_rounds(rt: HostRuntime) -> Result<(), Fail> {
    let mut seats = four(rt.alloc())?;
    letting_go(run_rounds(&rt, rt.alloc(), seats.as_mut_slice()), seats)
}
