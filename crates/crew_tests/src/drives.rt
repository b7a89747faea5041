// Drives over scripts: which calls each seat gets, in which order.

use crate::fresh::{Driven, drive_new, steps_of};
use crate::jobs::{are_begins, compare, first, letting_go, one, plain};
use arm_value::Text;
use dealer_trait::DealerStep;
use provider_trait::{Script, Step};
use std::alloc::Global;
use std::sync::Wait;
use std::test::Fail;
use std::thread::Threads;

/// So many scripts that do what they are asked.
pub fn scripts(alloc: Global, count: u32) -> Result<Vec<Script>, Fail> {
    let mut scripts = Vec::new(alloc);
    for _ in 0..count {
        scripts.push(plain(alloc))?;
    }
    Ok(scripts)
}

// Whether each seat's calls are the jobs that were begun with its number, in order.
fn all_are_begins(driven: &Driven<Script>) -> bool {
    let mut worker = 0;
    for seat in driven.seats.as_slice() {
        if !are_begins(seat.provider.calls(), driven.dealer.steps(), worker) {
            return false;
        }
        if worker == u32::MAX {
            return false;
        }
        worker += 1;
    }
    true
}

// How many answers the steps have.
fn answers(steps: &[DealerStep]) -> u32 {
    let mut count: u32 = 0;
    for step in steps {
        if let DealerStep::Answer(_, _) = step {
            count = count.saturating_add(1);
        }
    }
    count
}

// Fails unless all jobs were answered, and each seat's calls are its Begins.
fn check_all(driven: &Driven<Script>, jobs: u32) -> Result<(), Fail> {
    if driven.returned.is_err() {
        return Err(Fail::from("a fault"));
    }
    if answers(driven.dealer.steps()) != jobs {
        return Err(Fail::from("not all jobs were answered"));
    }
    if !all_are_begins(driven) {
        return Err(Fail::from("a seat's calls are not its Begins"));
    }
    Ok(())
}

// Each task from the second on needs up to two earlier ones, by a number that looks random.
fn random_needs(alloc: Global, jobs: u32) -> Result<Vec<Vec<u32>>, Fail> {
    let mut needs = Vec::new(alloc);
    let mut seed: u32 = 12345;
    for task in 0..jobs {
        let mut own = Vec::new(alloc);
        for _ in 0..2 {
            seed = seed.wrapping_mul(1_103_515_245).wrapping_add(12345);
            let other = seed >> 8;
            if other < task.saturating_mul(16) && task > 0 {
                own.push(other % task)?;
            }
        }
        needs.push(own)?;
    }
    Ok(needs)
}

// Drives so many seats over so many jobs with random needs.
fn drive_many<R: Threads + Wait + Sync>(
    rt: &R,
    alloc: Global,
    seats: u32,
    jobs: u32,
) -> Result<(), Fail> {
    let scripts = scripts(alloc, seats)?;
    match random_needs(alloc, jobs) {
        Ok(needs) => drive_all(rt, alloc, (jobs, needs), scripts),
        Err(fail) => letting_go(Err(fail), scripts),
    }
}

fn drive_all<R: Threads + Wait + Sync>(
    rt: &R,
    alloc: Global,
    puts: (u32, Vec<Vec<u32>>),
    scripts: Vec<Script>,
) -> Result<(), Fail> {
    let jobs = puts.0;
    let driven = drive_new(rt, alloc, puts, scripts, &[])?;
    letting_go(check_all(&driven, jobs), driven)
}

#[test]
fn one_seat_gets_all_jobs(rt: HostRuntime) -> Result<(), Fail> {
    drive_many(&rt, rt.alloc(), 1, 2000)
}

#[test]
fn two_seats_get_the_jobs_that_were_begun_with_their_numbers(rt: HostRuntime) -> Result<(), Fail> {
    drive_many(&rt, rt.alloc(), 2, 2000)
}

#[test]
fn four_seats_get_the_jobs_that_were_begun_with_their_numbers(rt: HostRuntime) -> Result<(), Fail> {
    drive_many(&rt, rt.alloc(), 4, 2000)
}

#[test]
fn many_seats_get_the_jobs_that_were_begun_with_their_numbers(rt: HostRuntime) -> Result<(), Fail> {
    drive_many(&rt, rt.alloc(), 64, 2000)
}

// Compares the steps of one seat over so many jobs, with this script, and what is returned.
fn check_one<R: Threads + Wait + Sync>(
    rt: &R,
    alloc: Global,
    script: Script,
    jobs: u32,
    wanted: &str,
) -> Result<(), Fail> {
    let scripts = one(alloc, script)?;
    let steps = steps_of(rt, alloc, (jobs, Vec::new(alloc)), scripts, &[])?;
    compare("steps", steps.as_str(), wanted)
}

#[test]
fn no_job_ends_at_once(rt: HostRuntime) -> Result<(), Fail> {
    check_one(&rt, rt.alloc(), plain(rt.alloc()), 0, "well")
}

#[test]
fn a_refusal_is_an_answer(rt: HostRuntime) -> Result<(), Fail> {
    let script = first(rt.alloc(), Step::Refuse(Text::of(rt.alloc(), "Quota")?))?;
    check_one(&rt, rt.alloc(), script, 2, "begin 0 0\nQuota 0\nwell")
}

#[test]
fn a_fault_is_a_back_and_ends_the_drive(rt: HostRuntime) -> Result<(), Fail> {
    let script = first(rt.alloc(), Step::Fail)?;
    let wanted = "begin 0 0\nback 0\nthe provider of seat 0 failed";
    check_one(&rt, rt.alloc(), script, 2, wanted)
}
