// What a scripted dealer deals, step by step.

use crate::jobs::{compare, delete_job, letting_go, put_job};
use crate::steps::{finish, give_back};
use arm_value::OutOfMemory;
use dealer_trait::{Dealer, Next};
use driver_fakes::ScriptedDealer;
use provider_trait::Job;
use std::alloc::Global;
use std::test::Fail;

// The task, of which a job was begun for worker 7.
fn begun(alloc: Global, task: u32, worker: u32) -> Result<String, Fail> {
    if worker == 7 {
        return Ok(format!(in alloc; "{task}")?);
    }
    Err(Fail::from("another worker"))
}

// What was answered to worker 7, which asked.
fn said(alloc: Global, next: &Result<Next, OutOfMemory>) -> Result<String, Fail> {
    match next {
        Ok(Next::Begun(job)) => begun(alloc, job.task(), job.worker()),
        Ok(Next::Wait) => Ok(String::from_str(alloc, "Wait")?),
        Ok(Next::End) => Ok(String::from_str(alloc, "End")?),
        Err(_) => Ok(String::from_str(alloc, "OutOfMemory")?),
    }
}

// Does what the line says: `next -> TASK`, `next -> Wait`, `next -> End`, `done TASK` or `back TASK`.
fn follow(alloc: Global, dealer: &mut ScriptedDealer, line: &str) -> Result<(), Fail> {
    let (verb, rest) = line.split_once(' ').unwrap_or((line, ""));
    if verb == "done" {
        return finish(alloc, dealer, rest.parse()?);
    }
    if verb == "back" {
        return give_back(dealer, rest.parse()?);
    }
    let next = dealer.next(alloc, 7);
    let said = letting_go(said(alloc, &next), next)?;
    let (_, wanted) = rest.split_once(' ').unwrap_or(("", rest));
    compare(line, said.as_str(), wanted)
}

fn follow_all(alloc: Global, dealer: &mut ScriptedDealer, lines: &str) -> Result<(), Fail> {
    for line in lines.lines() {
        follow(alloc, dealer, line)?;
    }
    Ok(())
}

// The numbers in a text, with spaces between.
fn numbers(alloc: Global, text: &str) -> Result<Vec<u32>, Fail> {
    let mut numbers = Vec::new(alloc);
    for word in text.split_whitespace() {
        numbers.push(word.parse()?)?;
    }
    Ok(numbers)
}

// Adds three jobs, each a deletion, but for the last one, which is a put.
fn add_jobs(alloc: Global, jobs: &mut Vec<Job>) -> Result<(), Fail> {
    jobs.push(delete_job(alloc)?)?;
    jobs.push(delete_job(alloc)?)?;
    Ok(jobs.push(put_job(alloc)?)?)
}

fn jobs(alloc: Global) -> Result<Vec<Job>, Fail> {
    let mut jobs = Vec::new(alloc);
    match add_jobs(alloc, &mut jobs) {
        Ok(()) => Ok(jobs),
        Err(fail) => letting_go(Err(fail), jobs),
    }
}

// The needs of each job, by a text that has those of one in a line.
fn lists(alloc: Global, needs: &str) -> Result<Vec<Vec<u32>>, Fail> {
    let mut lists = Vec::new(alloc);
    for line in needs.lines() {
        lists.push(numbers(alloc, line)?)?;
    }
    Ok(lists)
}

fn dealer_of(alloc: Global, jobs: Vec<Job>, lists: Vec<Vec<u32>>) -> Result<ScriptedDealer, Fail> {
    if jobs.len() > 3 {
        return letting_go(Err(Fail::from("too many jobs")), (jobs, lists));
    }
    Ok(ScriptedDealer::new(alloc, jobs, lists)?)
}

// A dealer of the three jobs with these needs.
fn dealer(alloc: Global, needs: &str) -> Result<ScriptedDealer, Fail> {
    let lists = lists(alloc, needs)?;
    match jobs(alloc) {
        Ok(jobs) => dealer_of(alloc, jobs, lists),
        Err(fail) => letting_go(Err(fail), lists),
    }
}

// Has a new dealer of the three jobs do what the lines say.
fn deal(alloc: Global, needs: &str, lines: &str) -> Result<(), Fail> {
    let mut dealer = dealer(alloc, needs)?;
    letting_go(follow_all(alloc, &mut dealer, lines), dealer)
}

const FREELY: &str = "next -> 0
next -> 1
next -> 2
next -> Wait
done 1
next -> Wait
done 0
done 2
next -> End
next -> End";

#[test]
fn the_least_ready_job_is_begun(rt: HostRuntime) -> Result<(), Fail> {
    deal(rt.alloc(), "", FREELY)
}

const IN_TURN: &str = "next -> 1
next -> Wait
done 1
next -> 0
next -> Wait
done 0
next -> 2
done 2
next -> End";

#[test]
fn a_job_waits_for_its_needs(rt: HostRuntime) -> Result<(), Fail> {
    deal(rt.alloc(), "1\n\n0 1", IN_TURN)
}

const BACK: &str = "next -> 0
next -> 1
back 0
next -> 0
next -> 2
back 2
done 0
next -> 2
done 1
done 2
next -> End";

#[test]
fn a_job_that_is_given_back_may_begin_again(rt: HostRuntime) -> Result<(), Fail> {
    deal(rt.alloc(), "", BACK)
}

const REFUSED: &str = "next -> 2
next -> Wait
done 2
next -> End
next -> End";

#[test]
fn nothing_begins_after_a_refusal(rt: HostRuntime) -> Result<(), Fail> {
    deal(rt.alloc(), "2\n2", REFUSED)
}

#[test]
fn a_circle_of_needs_ends_at_once(rt: HostRuntime) -> Result<(), Fail> {
    deal(rt.alloc(), "1\n0\n0", "next -> End")
}
