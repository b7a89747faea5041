// Pairs of providers, on one thread and on two.
ghost use Rattle.std.specs.Prelude.{◌≡◌};
ghost use Rattle.provider_trait.specs.declared.act.Act.TheVariants.{Delete, Put};

use crate::jobs::{compare, delete_job, letting_go, put_job};
use driver_fakes::Pairing;
use provider_trait::{Answer, Job, Provider, ProviderFault};
use std::alloc::Global;
use std::test::Fail;
use std::thread::{Threads, join};

// The word for an answer.
fn word(gave: &Result<Answer, ProviderFault>) -> &str {
    match gave {
        Ok(Answer::Stored(_)) => "stored",
        Ok(Answer::Gone) => "gone",
        Ok(Answer::Refused(code)) => code.as_str(),
        Err(_) => "fault",
    }
}

fn check_put(alloc: Global, provider: &mut Pairing, job: &Job, wanted: &str) -> Result<(), Fail>
    requires { job.now.act ≡ Put }
{
    let gave = provider.put(alloc, job);
    letting_go(compare("put", word(&gave), wanted), gave)
}

// Compares three puts of a pair, one after the other.
fn check_puts(alloc: Global, pair: &mut (Pairing, Pairing), job: &Job) -> Result<(), Fail>
    requires { job.now.act ≡ Put }
{
    check_put(alloc, &mut pair.0, job, "Alone")?;
    check_put(alloc, &mut pair.1, job, "stored")?;
    check_put(alloc, &mut pair.0, job, "stored")
}

fn check_new_puts(alloc: Global, job: &Job) -> Result<(), Fail>
    requires { job.now.act ≡ Put }
{
    let mut pair = Pairing::pair(alloc)?;
    letting_go(check_puts(alloc, &mut pair, job), pair)
}

#[test]
fn the_first_call_on_one_thread_is_alone(rt: HostRuntime) -> Result<(), Fail> {
    let job = put_job(rt.alloc())?;
    letting_go(check_new_puts(rt.alloc(), &job), job)
}

fn check_delete(alloc: Global, provider: &mut Pairing, job: &Job, wanted: &str) -> Result<(), Fail>
    requires { job.now.act ≡ Delete }
{
    let gave = provider.delete(alloc, job);
    letting_go(compare("delete", word(&gave), wanted), gave)
}

// Compares three deletions of a pair, one after the other.
fn check_deletions(alloc: Global, pair: &mut (Pairing, Pairing), job: &Job) -> Result<(), Fail>
    requires { job.now.act ≡ Delete }
{
    check_delete(alloc, &mut pair.0, job, "Alone")?;
    check_delete(alloc, &mut pair.1, job, "gone")?;
    check_delete(alloc, &mut pair.0, job, "gone")
}

fn check_new_deletions(alloc: Global, job: &Job) -> Result<(), Fail>
    requires { job.now.act ≡ Delete }
{
    let mut pair = Pairing::pair(alloc)?;
    letting_go(check_deletions(alloc, &mut pair, job), pair)
}

#[test]
fn the_first_deletion_on_one_thread_is_alone(rt: HostRuntime) -> Result<(), Fail> {
    let job = delete_job(rt.alloc())?;
    letting_go(check_new_deletions(rt.alloc(), &job), job)
}

// Puts by both providers at once.
fn put_both<R: Threads>(
    rt: &R,
    alloc: Global,
    pair: (Pairing, Pairing),
    job: &Job,
) -> (Result<Answer, ProviderFault>, Result<Answer, ProviderFault>)
    requires { job.now.act ≡ Put }
{
    let (mut one, mut other) = pair;
    join(rt, || one.put(alloc, job), || other.put(alloc, job))
}

// What two calls gave.
type Both = (Result<Answer, ProviderFault>, Result<Answer, ProviderFault>);

fn check_both(both: &Both) -> Result<(), Fail> {
    compare("one put", word(&both.0), "stored")?;
    compare("the other put", word(&both.1), "stored")
}

fn check_new_both<R: Threads>(rt: &R, alloc: Global, job: &Job) -> Result<(), Fail>
    requires { job.now.act ≡ Put }
{
    let both = put_both(rt, alloc, Pairing::pair(alloc)?, job);
    letting_go(check_both(&both), both)
}

#[test]
fn first_calls_on_two_threads_are_not_alone(rt: HostRuntime) -> Result<(), Fail> {
    let job = put_job(rt.alloc())?;
    letting_go(check_new_both(&rt, rt.alloc(), &job), job)
}
