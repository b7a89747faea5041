// The jobs of a dealer are done by two workers.
//
// The first worker begins a job. Before it has its answer, the second worker does one job after another, until there is
// none for it.
ghost use Rattle.std.specs.Prelude.{◌≡◌, Some};
ghost use Rattle.dealer_trait.specs.Steps.{begun};
ghost use Rattle.plan_board_tests.specs.Open.{OthersStay, StayOpen};

use crate::answering::answer_of;
use crate::telling::{push_answer, push_begun};
use dealer_trait::{Dealer, Next};
use provider_trait::Job;
use sample_boards::parts::letting_go;
use std::alloc::Global;

// More jobs than a test has.
const JOBS: u32 = 40;

/// Answers the open job. Returns whether that was done.
pub fn settle<D: Dealer>(alloc: Global, dealer: &mut D, out: &mut String, job: &Job) -> bool
    requires { begun job.now.task (D.steps dealer.old) ≡ Some job.now }
    ensures { OthersStay job.now.task (D.steps dealer.old) (D.steps dealer.new) }
{
    match answer_of(alloc, job) {
        Some(answer) => {
            let number = job.task();
            let told = push_answer(out, number, &answer).is_ok();
            dealer.answer(number, answer);
            told
        }
        None => false,
    }
}

// The second worker does a job, if there is one for it. Returns whether that was done.
fn second_job<D: Dealer>(alloc: Global, dealer: &mut D, out: &mut String) -> bool
    ensures { StayOpen (D.steps dealer.old) (D.steps dealer.new) }
{
    match dealer.next(alloc, 1) {
        Ok(Next::Begun(job)) => {
            let told = push_begun(alloc, out, &job).is_ok();
            let done = settle(alloc, dealer, out, &job);
            letting_go(told && done, job)
        }
        next => letting_go(false, next),
    }
}

// The second worker does one job after another, until there is none for it.
fn second<D: Dealer>(alloc: Global, dealer: &mut D, out: &mut String)
    ensures { StayOpen (D.steps dealer.old) (D.steps dealer.new) }
{
    for _job in 0..JOBS {
        if !second_job(alloc, dealer, out) {
            return;
        }
    }
}

// The first worker does a job, if there is one for it. Returns whether that was done.
fn first_job<D: Dealer>(alloc: Global, dealer: &mut D, out: &mut String) -> bool {
    match dealer.next(alloc, 0) {
        Ok(Next::Begun(job)) => {
            let told = push_begun(alloc, out, &job).is_ok();
            second(alloc, dealer, out);
            let done = settle(alloc, dealer, out, &job);
            letting_go(told && done, job)
        }
        next => letting_go(false, next),
    }
}

/// Does the jobs of the dealer, and adds a line for each that is begun and for each answer.
pub fn drive<D: Dealer>(alloc: Global, dealer: &mut D, out: &mut String) {
    for _job in 0..JOBS {
        if !first_job(alloc, dealer, out) {
            return;
        }
    }
}
