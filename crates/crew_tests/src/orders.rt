// Which jobs are begun after which answers.

use crate::drives::scripts;
use crate::fresh::steps_of;
use crate::jobs::{first, letting_go, plain, two};
use crate::side_by_side::needs_of;
use arm_value::Text;
use provider_trait::{Script, Step};
use std::alloc::Global;
use std::sync::Wait;
use std::test::Fail;
use std::thread::Threads;

// The steps of a drive of these scripts over so many puts with these needs, and what is returned.
fn steps_with<R: Threads + Wait + Sync>(
    rt: &R,
    alloc: Global,
    scripts: Vec<Script>,
    (jobs, needs): (u32, &str),
) -> Result<String, Fail> {
    match needs_of(alloc, needs) {
        Ok(needs) => steps_of(rt, alloc, (jobs, needs), scripts, &[]),
        Err(fail) => letting_go(Err(fail), scripts),
    }
}

// Fails unless both lines come before the one that begins so.
fn check_before(steps: &str, begun: &str, one: &str, other: &str) -> Result<(), Fail> {
    let before = match steps.split_once(begun) {
        Some((before, _)) => before,
        None => return Err(Fail::from("a job was not begun")),
    };
    if before.contains(one) && before.contains(other) {
        return Ok(());
    }
    Err(Fail::from("a job was begun too early"))
}

fn check_batches(steps: &str) -> Result<(), Fail> {
    check_before(steps, "begin 2 ", "stored 0\n", "stored 1\n")?;
    check_before(steps, "begin 3 ", "stored 0\n", "stored 1\n")?;
    check_before(steps, "begin 4 ", "stored 2\n", "stored 3\n")?;
    check_before(steps, "well", "stored 4\n", "begin 4 ")
}

#[test]
fn a_batch_begins_after_the_answers_of_the_last_one(rt: HostRuntime) -> Result<(), Fail> {
    let scripts = scripts(rt.alloc(), 2)?;
    let steps = steps_with(&rt, rt.alloc(), scripts, (5, "\n\n0 1\n0 1\n2 3"))?;
    check_batches(steps.as_str())
}

// Two scripts, of which the second refuses its first call.
fn second_refuses(alloc: Global) -> Result<Vec<Script>, Fail> {
    let refusing = first(alloc, Step::Refuse(Text::of(alloc, "Quota")?))?;
    Ok(two(alloc, (plain(alloc), refusing))?)
}

fn check_refused(steps: &str) -> Result<(), Fail> {
    if steps.contains("begin 2 ") && !steps.contains("stored 2\n") {
        return Err(Fail::from("a job that was begun was not kept"));
    }
    check_before(steps, "well", "stored 0\n", "Quota 1\n")
}

#[test]
fn after_a_refusal_what_is_begun_is_kept(rt: HostRuntime) -> Result<(), Fail> {
    let scripts = second_refuses(rt.alloc())?;
    let steps = steps_with(&rt, rt.alloc(), scripts, (3, ""))?;
    check_refused(steps.as_str())
}
