//! Times boards by hand: 2,000 instances in a chain, in a fan, and beside 100 scopes in one another.
//!
//! Without arguments the program prints what it would time, which is the same every time. With the argument `measure`
//! it makes each board by the clock, several times, and answers each of its jobs.
#![tactic(auto)]

ghost use Rattle.deploy_core.specs.Opens.{AreStartNeeds};
ghost use Rattle.given_plans.specs.Given.{IsGiven, planned_of};

mod shapes;

use dealer_trait::Next;
use deploy_core::Board;
use given_plans::GivenPlan;
use provider_trait::Answer;
use sample_boards::following::state;
use sample_boards::parts::letting_go;
use shapes::{SHAPES, Shape, given, words};
use std::alloc::{AllocError, Global};
use std::io::Print;
use std::rt::{Clock, Env};
use std::time::{Duration, Instant};
use std::{env, io};

// How often each board is made.
const TURNS: u32 = 5;

fn micros(elapsed: Duration) -> u64 {
    u64::try_from(elapsed.as_micros()).unwrap_or(u64::MAX)
}

// Stores what is begun next. Returns whether something was begun.
fn step(alloc: Global, board: &mut Board<GivenPlan>) -> bool {
    let Some(state) = state(alloc) else {
        return false;
    };
    match board.next(alloc, 0) {
        Ok(Next::Begun(job)) => {
            let task = job.task();
            board.answer(task, Answer::Stored(state));
            letting_go(true, job)
        }
        next => letting_go(false, (next, state)),
    }
}

// Stores each put in turn. Returns how many events there are then.
fn run(alloc: Global, board: &mut Board<GivenPlan>, count: usize) -> usize {
    for _put in 0..=count {
        if !step(alloc, board) {
            return board.history().len();
        }
    }
    board.history().len()
}

// Makes a board and stores each put in turn. Returns how many events there are then.
fn played(alloc: Global, plan: GivenPlan, needs: &[(usize, usize)]) -> usize
    requires given { IsGiven plan }
    requires needs { AreStartNeeds (planned_of plan) needs.now }
{
    let count = plan.tasks.len();
    match Board::open(alloc, plan, needs, Vec::new(alloc)) {
        Ok(mut board) => {
            let events = run(alloc, &mut board, count);
            letting_go(events, board)
        }
        Err(fault) => letting_go(0, fault),
    }
}

// The microseconds of that, from this start on, and how many events there are.
fn clocked<R: Clock + Alloc<A = Global>>(
    rt: &R,
    start: Instant,
    plan: GivenPlan,
    needs: &[(usize, usize)],
) -> io::Result<(u64, usize)>
    requires given { IsGiven plan }
    requires needs { AreStartNeeds (planned_of plan) needs.now }
{
    let events = played(rt.alloc(), plan, needs);
    let elapsed = start.elapsed(rt)?;
    Ok((micros(elapsed), events))
}

// The microseconds in which the board of a plan is made and each put stored, and how many events there are then.
fn timed<R: Clock + Alloc<A = Global>>(
    rt: &R,
    plan: GivenPlan,
    needs: &[(usize, usize)],
) -> io::Result<(u64, usize)>
    requires given { IsGiven plan }
    requires needs { AreStartNeeds (planned_of plan) needs.now }
{
    match Instant::now(rt) {
        Ok(start) => clocked(rt, start, plan, needs),
        Err(fault) => letting_go(Err(fault), plan),
    }
}

// The same, after its needs are found; nothing where memory is out.
fn timed_plan<R: Clock + Alloc<A = Global>>(rt: &R, plan: GivenPlan) -> io::Result<(u64, usize)>
    requires { IsGiven plan }
{
    match plan.start_needs(rt.alloc()) {
        Ok(needs) => timed(rt, plan, needs.as_slice()),
        Err(_) => letting_go(Ok((0, 0)), plan),
    }
}

// The least microseconds of several turns, and how many events there are.
fn least<R: Clock + Alloc<A = Global>>(rt: &R, shape: Shape) -> io::Result<(u64, usize)> {
    let mut least = u64::MAX;
    let mut events = 0;
    for _turn in 0..TURNS {
        if let Some(plan) = given(rt.alloc(), shape) {
            let (time, found) = timed_plan(rt, plan)?;
            least = least.min(time);
            events = found;
        }
    }
    Ok((least, events))
}

fn measure<R: Clock + Print + Alloc<A = Global>>(rt: &R, shape: Shape) -> io::Result<()> {
    let (time, events) = least(rt, shape)?;
    println!(rt; "{}: {events} events in {time} us", words(shape))
}

fn list<R: Print + Alloc<A = Global>>(rt: &R, shape: Shape) -> io::Result<()> {
    println!(rt; "{}", words(shape))
}

// Whether the first word after the program's name is `measure`.
fn is_measured<R: Env + Alloc<A = Global>>(rt: &R) -> Result<bool, AllocError> {
    let Ok(args) = env::args(rt) else {
        return Ok(false);
    };
    let words: Vec<String> = args.skip(1).collect(rt.alloc())?;
    match words.first() {
        Some(word) => Ok(word.as_str() == "measure"),
        None => Ok(false),
    }
}

fn main(rt: HostRuntime) -> io::Result<()> {
    let measured = is_measured(&rt)?;
    for shape in &SHAPES {
        if measured {
            measure(&rt, *shape)?;
        } else {
            list(&rt, *shape)?;
        }
    }
    Ok(())
}
