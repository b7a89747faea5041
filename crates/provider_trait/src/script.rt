// A provider that follows a list of steps.

ghost use Rattle.std.specs.Prelude.{◌≡◌, [], true, length, slice_get, option_copied, IfOk};
ghost use Rattle.provider_trait.specs.declared.act.Act.TheVariants.{Put, Delete};
ghost use Rattle.provider_trait.specs.Answer.{Suits};
ghost use Rattle.provider_trait.specs.Calls.{AddsCall, Counts, GivesUnlessMemory};
ghost use Rattle.provider_trait.specs.Script.{ScriptMay, done, scripted, gives};
ghost use Rattle.provider_trait.specs.ScriptParts.{script_steps, script_calls, script_faults};

use crate::act::Act;
use crate::answer::{Answer, ProviderFault};
use crate::call::{Call, add_answered, add_failed};
use crate::job::Job;
use crate::named::Named;
use crate::parts::letting_go;
use crate::plain::stored;
use crate::provider::Provider;
use crate::step::Step;
use arm_value::OutOfMemory;
use std::alloc::Global;

/// A provider that does at each call what its next step says, and after the last step what it is
/// asked.
///
/// It reports its calls. `OutOfMemory` consumes no step.
#[derive(Drop)]
pub struct Script {
    steps: Vec<Step>,
    calls: Vec<Call>,
    faults: u64,
}

impl Script {
    /// A script of these steps, without calls. It takes no memory.
    pub fn new(alloc: Global, steps: Vec<Step>) -> Script
        ensures steps { script_steps result ≡ steps.items }
        ensures calls { script_calls result ≡ [] }
        ensures faults { script_faults result ≡ 0 }
    {
        Script {
            steps,
            calls: Vec::new(alloc),
            faults: 0,
        }
    }

    /// The calls so far, oldest first.
    pub fn calls(&self) -> &[Call]
        ensures { result.now ≡ script_calls self.now }
    {
        self.calls.as_slice()
    }

    /// How many calls have failed, at most 2^64 - 1.
    pub fn faults(&self) -> u64
        ensures { result ≡ script_faults self.now }
    {
        self.faults
    }

    // Makes a call by the next step.
    fn call(&mut self, alloc: Global, job: &Job) -> Result<Answer, ProviderFault>
        ensures gives { GivesUnlessMemory
            (scripted (slice_get (script_steps self.old)
            (length (script_calls self.old))) job.now) result }
        ensures count { Counts (script_faults self.old) (script_faults self.new) result }
        ensures calls { AddsCall (script_calls self.old) (script_calls self.new) job.now result }
        ensures steps { script_steps self.new ≡ script_steps self.old }
    {
        let step = self.steps.as_slice().get(self.calls.len());
        match answer_at(alloc, step, job)? {
            Some(answer) => {
                match add_answered(alloc, &mut self.calls, job, &answer) {
                    Ok(()) => Ok(answer),
                    Err(_) => letting_go(Err(ProviderFault::OutOfMemory), answer),
                }
            }
            None => {
                add_failed(alloc, &mut self.calls, job)?;
                self.faults = self.faults.saturating_add(1);
                Err(ProviderFault::Fault)
            }
        }
    }
}

impl Provider for Script {
    ghost may = { ScriptMay };

    ghost faults = { script_faults };

    ghost tells = { true };

    ghost calls = { script_calls };

    fn put(&mut self, alloc: Global, job: &Job) -> Result<Answer, ProviderFault>
        requires { job.now.act ≡ Put }
        ensures may { IfOk result (ScriptMay Put job.now.id job.now.api job.now.body) }
        ensures suits { IfOk result (Suits Put) }
        ensures count { Counts (script_faults self.old) (script_faults self.new) result }
        ensures calls { true ≡ true
            → AddsCall (script_calls self.old) (script_calls self.new) job.now result }
        ensures gives { GivesUnlessMemory
            (scripted (slice_get (script_steps self.old)
            (length (script_calls self.old))) job.now) result }
        ensures steps { script_steps self.new ≡ script_steps self.old }
    {
        self.call(alloc, job)
    }

    fn delete(&mut self, alloc: Global, job: &Job) -> Result<Answer, ProviderFault>
        requires { job.now.act ≡ Delete }
        ensures may { IfOk result (ScriptMay Delete job.now.id job.now.api job.now.body) }
        ensures suits { IfOk result (Suits Delete) }
        ensures count { Counts (script_faults self.old) (script_faults self.new) result }
        ensures calls { true ≡ true
            → AddsCall (script_calls self.old) (script_calls self.new) job.now result }
        ensures gives { GivesUnlessMemory
            (scripted (slice_get (script_steps self.old)
            (length (script_calls self.old))) job.now) result }
        ensures steps { script_steps self.new ≡ script_steps self.old }
    {
        self.call(alloc, job)
    }
}

// The answer to a job at a step; none where the step is to fail.
fn answer_at(alloc: Global, step: Option<&Step>, job: &Job) -> Result<Option<Answer>, OutOfMemory>
    ensures { IfOk result (λ a. gives a ≡ scripted (option_copied step.entry) job.now) }
{
    match step {
        None => Ok(Some(done(alloc, job)?)),
        Some(Step::Store) => Ok(Some(done(alloc, job)?)),
        Some(Step::Refuse(code)) => Ok(Some(Answer::Refused(code.copy(alloc)?))),
        Some(Step::Fail) => Ok(None),
    }
}

// The answer to a job that is done as it asks.
fn done(alloc: Global, job: &Job) -> Result<Answer, OutOfMemory>
    ensures { IfOk result (λ a. a ≡ done job.now.act job.now.id job.now.api job.now.body) }
{
    match job.act() {
        Act::Put => {
            let named = Named::of(alloc, job.id())?;
            stored(alloc, &named, job)
        }
        Act::Delete => Ok(Answer::Gone),
    }
}
