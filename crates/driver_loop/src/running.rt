// The driver's loop.

ghost use Rattle.std.specs.Prelude.{◌≡◌, ◌<◌, ◌≤◌, ◌^◌, ℕ, List, length, None, Some, true};
ghost use Rattle.driver_loop.specs.declared.action.Action.{Action};
ghost use Rattle.driver_loop.specs.Ends.{Asks, Drove, IsTaskAt};
ghost use Rattle.driver_loop.specs.Moments.{moment, pages};
ghost use Rattle.driver_loop.specs.Runs.{Ran, Tied};
ghost use Rattle.driver_loop.specs.Turns.{Turns};
ghost use Rattle.foundation.specs.Options.{or_else};

use crate::asking::deal;
use crate::crew::Crew;
use crate::fault::{DriveFault, Ended};
use crate::open_job::{OpenJob, has_no_job, is_of_open_job};
use crate::settling::{let_go, settle};
use dealer_trait::{Book, Dealer};
use std::alloc::Global;
use std::sync::Wait;

/// Hands jobs to the crew and settles their results, until the dealer has come to its end or something
/// fails. After the first fault nothing more is begun, and the open jobs come in.
pub fn run<R: Wait, G: Dealer, C: Crew, B: Book>(
    rt: &R,
    alloc: Global,
    board: &mut G,
    crew: &mut C,
    book: &mut B,
    opens: &mut [Option<OpenJob>],
) -> Ended
    requires few { length opens.old ≤ 2 ^ 32 }
    requires seats { C.seats crew.old ≡ length opens.old }
    requires ready { C.is_ready crew.old }
    requires tied { Tied (G.steps board.old) opens.old }
    ensures len { length opens.new ≡ length opens.old }
    ensures seats { C.seats crew.new ≡ length opens.old }
    ensures ready { C.is_ready crew.new }
    ensures stays { G.fixed board.new ≡ G.fixed board.old }
    ensures fixed { C.fixed crew.new ≡ C.fixed crew.old }
    ensures drove { Drove (G.is_end board.new) B.tells
        (moment (G.steps board.old) (C.received crew.old) (C.sent crew.old) opens.old)
        (moment (G.steps board.new) (C.received crew.new) (C.sent crew.new) opens.new)
        (pages B.notes B.refusals B.first B.faults B.is_broken book.old)
        (pages B.notes B.refusals B.first B.faults B.is_broken book.new) result }
{
    let mut fault = None;
    for _ in rt.forever() {
        if let Some(ended) = turn(rt, alloc, board, crew, book, opens, &mut fault) {
            return ended;
        }
    }
    unreachable!()
}

// Asks for jobs, and takes one result if a job is open. Returns how the drive has ended, if it has.
fn turn<R: Wait, G: Dealer, C: Crew, B: Book>(
    rt: &R,
    alloc: Global,
    board: &mut G,
    crew: &mut C,
    book: &mut B,
    opens: &mut [Option<OpenJob>],
    fault: &mut Option<DriveFault>,
) -> Option<Ended>
    requires few { length opens.old ≤ 2 ^ 32 }
    requires seats { C.seats crew.old ≡ length opens.old }
    requires ready { C.is_ready crew.old }
    requires tied { Tied (G.steps board.old) opens.old }
    ensures len { length opens.new ≡ length opens.old }
    ensures seats { C.seats crew.new ≡ length opens.old }
    ensures ready { C.is_ready crew.new }
    ensures stays { G.fixed board.new ≡ G.fixed board.old }
    ensures fixed { C.fixed crew.new ≡ C.fixed crew.old }
    ensures tied { Tied (G.steps board.new) opens.new }
    ensures turned { Turns (G.is_end board.new) B.tells
        (moment (G.steps board.old) (C.received crew.old) (C.sent crew.old) opens.old)
        (moment (G.steps board.new) (C.received crew.new) (C.sent crew.new) opens.new)
        (pages B.notes B.refusals B.first B.faults B.is_broken book.old)
        (pages B.notes B.refusals B.first B.faults B.is_broken book.new)
        fault.old fault.new result }
{
    let ended = ask(rt, alloc, board, crew, opens, fault);
    if !has_no_job(opens) {
        return take(rt, board, crew, book, opens, fault);
    }
    match *fault {
        Some(fault) => Some(Ended::Failed(fault)),
        None => { if ended { Some(Ended::Well) } else { None } }
    }
}

// Takes a result. One that is of no open job ends the drive.
fn take<R: Wait, G: Dealer, C: Crew, B: Book>(
    rt: &R,
    board: &mut G,
    crew: &mut C,
    book: &mut B,
    opens: &mut [Option<OpenJob>],
    fault: &mut Option<DriveFault>,
) -> Option<Ended>
    requires seats { C.seats crew.old ≡ length opens.old }
    requires ready { C.is_ready crew.old }
    requires tied { Tied (G.steps board.old) opens.old }
    ensures len { length opens.new ≡ length opens.old }
    ensures seats { C.seats crew.new ≡ length opens.old }
    ensures ready { C.is_ready crew.new }
    ensures stays { G.fixed board.new ≡ G.fixed board.old }
    ensures fixed { C.fixed crew.new ≡ C.fixed crew.old }
    ensures tied { Tied (G.steps board.new) opens.new }
    ensures turned { Turns (G.is_end board.new) B.tells
        (moment (G.steps board.old) (C.received crew.old) (C.sent crew.old) opens.old)
        (moment (G.steps board.new) (C.received crew.new) (C.sent crew.new) opens.new)
        (pages B.notes B.refusals B.first B.faults B.is_broken book.old)
        (pages B.notes B.refusals B.first B.faults B.is_broken book.new)
        fault.old fault.new result }
{
    let done = crew.receive(rt);
    if !is_of_open_job(opens, &done) {
        let_go(done);
        give_back(board, opens);
        return Some(Ended::Stray);
    }
    *fault = earlier(*fault, settle(board, book, opens, done));
    None
}

// Asks for a job for each free seat, unless there was a fault. Returns whether the dealer has come to
// its end.
fn ask<R: Wait, G: Dealer, C: Crew>(
    rt: &R,
    alloc: Global,
    board: &mut G,
    crew: &mut C,
    opens: &mut [Option<OpenJob>],
    fault: &mut Option<DriveFault>,
) -> bool
    requires few { length opens.old ≤ 2 ^ 32 }
    requires seats { C.seats crew.old ≡ length opens.old }
    requires ready { C.is_ready crew.old }
    requires tied { Tied (G.steps board.old) opens.old }
    ensures len { length opens.new ≡ length opens.old }
    ensures seats { C.seats crew.new ≡ length opens.old }
    ensures ready { C.is_ready crew.new }
    ensures stays { G.fixed board.new ≡ G.fixed board.old }
    ensures fixed { C.fixed crew.new ≡ C.fixed crew.old }
    ensures tied { Tied (G.steps board.new) opens.new }
    ensures ran { (course : List Action) × Asks fault.old fault.new course
        × Ran (moment (G.steps board.old) (C.received crew.old) (C.sent crew.old) opens.old)
        (moment (G.steps board.new) (C.received crew.new) (C.sent crew.new) opens.new) course }
    ensures end { result ≡ true → G.is_end board.new × (fault.new ≡ None) }
{
    if let Some(_) = *fault {
        return false;
    }
    match deal(rt, alloc, board, crew, opens) {
        Ok(ended) => ended,
        Err(_) => {
            *fault = Some(DriveFault::OutOfMemory);
            false
        }
    }
}

// The earlier fault, where there is one.
fn earlier(before: Option<DriveFault>, now: Option<DriveFault>) -> Option<DriveFault>
    ensures { result ≡ or_else before now }
{
    match before {
        None => now,
        Some(fault) => Some(fault),
    }
}

// Gives the dealer each open job back.
fn give_back<G: Dealer>(board: &mut G, opens: &mut [Option<OpenJob>])
    requires { Tied (G.steps board.old) opens.old }
    ensures stays { G.fixed board.new ≡ G.fixed board.old }
    ensures len { length opens.new ≡ length opens.old }
    ensures tied { Tied (G.steps board.new) opens.new }
{
    for k in 0..opens.len() {
        if let Some(task) = task_at(opens, k) {
            back_one(board, opens, k, task);
        }
    }
}

// Gives the dealer the open job of one seat back.
fn back_one<G: Dealer>(board: &mut G, opens: &mut [Option<OpenJob>], k: usize, task: u32)
    requires tied { Tied (G.steps board.old) opens.old }
    requires at { (k < length opens.old) × IsTaskAt opens.old k (Some task) }
    ensures stays { G.fixed board.new ≡ G.fixed board.old }
    ensures len { length opens.new ≡ length opens.old }
    ensures tied { Tied (G.steps board.new) opens.new }
{
    board.back(task);
    opens[k] = None;
}

// The task of a seat's open job.
fn task_at(opens: &[Option<OpenJob>], k: usize) -> Option<u32>
    ensures { IsTaskAt opens.now k result }
{
    match opens.get(k) {
        Some(Some(opened)) => Some(opened.task),
        _ => None,
    }
}
