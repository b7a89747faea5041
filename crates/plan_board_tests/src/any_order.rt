// The jobs of a dealer are done by two workers in a random order.
//
// While a job of the first is open, the second begins one, and either of the two ends first.
ghost use Rattle.std.specs.Prelude.{◌≡◌, ◌==◌, Some, false};
ghost use Rattle.dealer_trait.specs.Steps.{begun};
ghost use Rattle.plan_board_tests.specs.Open.{OthersStay};

use crate::drawn::{below, following};
use crate::driving::settle;
use crate::telling::{push_back, push_begun};
use dealer_trait::{Dealer, Next};
use provider_trait::Job;
use sample_boards::parts::letting_go;
use std::alloc::Global;

/// How often a job is begun while no other is open, at most.
pub const ROUNDS: u32 = 40;

/// Whether the job that ends is given back.
pub fn is_given_back(number: u64) -> bool {
    below(number, 8) == 0
}

/// Whether the job that was begun first ends first.
pub fn ends_first(number: u64) -> bool {
    below(following(number), 2) == 0
}

/// How many jobs are begun while another one is open.
pub fn turns(number: u64) -> u64 {
    below(following(following(number)), 6)
}

// The open job is given back.
fn give_back<D: Dealer>(dealer: &mut D, out: &mut String, job: &Job)
    requires { begun job.now.task (D.steps dealer.old) ≡ Some job.now }
    ensures { OthersStay job.now.task (D.steps dealer.old) (D.steps dealer.new) }
{
    let number = job.task();
    let _told = push_back(out, number).is_ok();
    dealer.back(number);
}

// The open job ends.
fn end<D: Dealer>(alloc: Global, dealer: &mut D, out: &mut String, job: &Job, number: u64)
    requires { begun job.now.task (D.steps dealer.old) ≡ Some job.now }
    ensures { OthersStay job.now.task (D.steps dealer.old) (D.steps dealer.new) }
{
    if is_given_back(number) {
        give_back(dealer, out, job);
    } else {
        let _settled = settle(alloc, dealer, out, job);
    }
}

// One of two open jobs ends. The other one is returned.
fn one_ends<D: Dealer>(
    alloc: Global,
    dealer: &mut D,
    out: &mut String,
    held: Job,
    other: Job,
    number: u64,
) -> Job
    requires held { begun held.task (D.steps dealer.old) ≡ Some held }
    requires other { begun other.task (D.steps dealer.old) ≡ Some other }
    requires differ { (held.task == other.task) ≡ false }
    requires differs { (other.task == held.task) ≡ false }
    ensures { begun result.task (D.steps dealer.new) ≡ Some result }
{
    let _told = push_begun(alloc, out, &other).is_ok();
    if ends_first(number) {
        end(alloc, dealer, out, &held, number);
        letting_go(other, held)
    } else {
        end(alloc, dealer, out, &other, number);
        letting_go(held, other)
    }
}

// While a job is open, another one is begun, if there is one, and one of the two ends. The other one is returned.
fn exchanged<D: Dealer>(
    alloc: Global,
    dealer: &mut D,
    out: &mut String,
    held: Job,
    number: u64,
) -> Job
    requires { begun held.task (D.steps dealer.old) ≡ Some held }
    ensures { begun result.task (D.steps dealer.new) ≡ Some result }
{
    match dealer.next(alloc, 1) {
        Ok(Next::Begun(other)) => one_ends(alloc, dealer, out, held, other, number),
        next => letting_go(held, next),
    }
}

// While a job is open, others are begun. All end.
fn hold<D: Dealer>(alloc: Global, dealer: &mut D, out: &mut String, job: Job, start: u64)
    requires { begun job.task (D.steps dealer.old) ≡ Some job }
{
    let mut held = job;
    let mut number = start;
    for _turn in 0..turns(start) {
        number = following(number);
        held = exchanged(alloc, dealer, out, held, number);
    }
    end(alloc, dealer, out, &held, following(number));
    letting_go((), held)
}

// A job is begun, if there is one, and others while it is open. Returns whether there was one.
fn first_job<D: Dealer>(alloc: Global, dealer: &mut D, out: &mut String, number: u64) -> bool {
    match dealer.next(alloc, 0) {
        Ok(Next::Begun(job)) => {
            let told = push_begun(alloc, out, &job).is_ok();
            hold(alloc, dealer, out, job, number);
            told
        }
        next => letting_go(false, next),
    }
}

/// Does the jobs of the dealer in an order that follows from the number, and adds a line for each that is begun and
/// for each that ends.
pub fn drive<D: Dealer>(alloc: Global, dealer: &mut D, out: &mut String, start: u64) {
    let mut number = start;
    for _round in 0..ROUNDS {
        number = following(number);
        if !first_job(alloc, dealer, out, number) {
            return;
        }
    }
}
