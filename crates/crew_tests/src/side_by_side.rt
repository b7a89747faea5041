// Drives whose calls overlap.

use crate::fresh::steps_of;
use crate::jobs::{compare, letting_go, two};
use crate::waiting::{LONG, SHORT, Waiting};
use driver_fakes::Pairing;
use provider_trait::Provider;
use std::alloc::Global;
use std::sync::Wait;
use std::test::Fail;
use std::thread::Threads;

// Needs by a text that has those of each task in a line.
pub fn needs_of(alloc: Global, text: &str) -> Result<Vec<Vec<u32>>, Fail> {
    let mut needs = Vec::new(alloc);
    for line in text.lines() {
        let mut numbers = Vec::new(alloc);
        for word in line.split_whitespace() {
            numbers.push(word.parse()?)?;
        }
        needs.push(numbers)?;
    }
    Ok(needs)
}

// The steps of a drive of two seats over so many puts with these needs, and what is returned.
fn steps_of_two<R: Threads + Wait + Sync, P: Provider>(
    rt: &R,
    alloc: Global,
    pair: (P, P),
    (jobs, needs): (u32, &str),
) -> Result<String, Fail> {
    let providers = two(alloc, pair)?;
    match needs_of(alloc, needs) {
        Ok(needs) => steps_of(rt, alloc, (jobs, needs), providers, &[]),
        Err(fail) => letting_go(Err(fail), providers),
    }
}

// Fails where a call was alone, or the drive did not come to its end.
fn check_joined(steps: &str) -> Result<(), Fail> {
    if steps.contains("Alone") || !steps.ends_with("well") {
        return compare("steps", steps, "no call that is alone");
    }
    Ok(())
}

#[test]
fn independent_jobs_overlap(rt: HostRuntime) -> Result<(), Fail> {
    let pair = Pairing::pair(rt.alloc())?;
    let steps = steps_of_two(&rt, rt.alloc(), pair, (2, ""))?;
    check_joined(steps.as_str())
}

// Compares the steps of a drive of two puts with these needs, over a new pair of which one call waits for the other.
fn check_needing<R: Threads + Wait + Sync>(
    rt: &R,
    alloc: Global,
    needs: &str,
    wanted: &str,
) -> Result<(), Fail> {
    let pair = Waiting::pair(alloc, 1, SHORT)?;
    let steps = steps_of_two(rt, alloc, pair, (2, needs))?;
    compare("steps", steps.as_str(), wanted)
}

#[test]
fn a_job_that_is_needed_is_alone(rt: HostRuntime) -> Result<(), Fail> {
    check_needing(&rt, rt.alloc(), "\n0", "begin 0 0\nAlone 0\nwell")
}

#[test]
fn the_later_job_that_is_needed_is_alone(rt: HostRuntime) -> Result<(), Fail> {
    check_needing(&rt, rt.alloc(), "1", "begin 1 0\nAlone 1\nwell")
}

#[test]
fn a_free_seat_gets_its_next_job_while_another_is_at_work(rt: HostRuntime) -> Result<(), Fail> {
    let pair = Waiting::pair(rt.alloc(), 2, LONG)?;
    let steps = steps_of_two(&rt, rt.alloc(), pair, (3, ""))?;
    check_joined(steps.as_str())
}
