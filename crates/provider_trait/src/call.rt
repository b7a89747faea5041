// The calls that providers keep.

ghost use Rattle.std.specs.Prelude.{◌≡◌, ◌++◌, ◌∷◌, [], Ok, Err, if◌then◌else◌, is_ok};
ghost use Rattle.provider_trait.specs.Calls.{call};
ghost use Rattle.provider_trait.specs.declared.answer.ProviderFault.TheVariants.{Fault};

use crate::answer::{Answer, ProviderFault};
use crate::job::Job;
use crate::parts::run_out;
use arm_value::OutOfMemory;
use std::alloc::Global;

/// A call of a provider.
#[derive(Drop)]
pub struct Call {
    /// The job that the provider was given.
    pub job: Job,
    /// What the call returned.
    pub gave: Result<Answer, ProviderFault>,
}

// Adds a call. The calls are unchanged after `OutOfMemory`.
fn add(calls: &mut Vec<Call>, call: Call) -> Result<(), OutOfMemory>
    ensures { calls.new.items
        ≡ (if is_ok result then calls.old.items ++ call ∷ [] else calls.old.items) }
{
    match calls.push(call) {
        Ok(()) => Ok(()),
        Err(refused) => run_out(refused),
    }
}

/// Adds a call that was answered. The calls are unchanged after `OutOfMemory`.
pub(crate) fn add_answered(
    alloc: Global,
    calls: &mut Vec<Call>,
    job: &Job,
    answer: &Answer,
) -> Result<(), OutOfMemory>
    ensures { calls.new.items
        ≡ (if is_ok result then calls.old.items ++ call job.now (Ok answer.now) ∷ []
        else calls.old.items) }
{
    let job = job.copy(alloc)?;
    match answer.copy(alloc) {
        Ok(answer) => add(
            calls,
            Call {
                job,
                gave: Ok(answer),
            },
        ),
        Err(_) => run_out(job),
    }
}

/// Adds a call that failed. The calls are unchanged after `OutOfMemory`.
pub(crate) fn add_failed(alloc: Global, calls: &mut Vec<Call>, job: &Job) -> Result<(), OutOfMemory>
    ensures { calls.new.items
        ≡ (if is_ok result then calls.old.items ++ call job.now (Err Fault) ∷ []
        else calls.old.items) }
{
    let job = job.copy(alloc)?;
    let gave = Err(ProviderFault::Fault);
    add(calls, Call { job, gave })
}
