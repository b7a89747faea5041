// What is begun, by all steps of a dealer, and the end of a job that is begun.
ghost use Rattle.std.specs.Prelude.{◌≡◌};
ghost use Rattle.std.specs.Prelude.{Option};
ghost use Rattle.provider_trait.specs.Work.{Work};
ghost use Rattle.dealer_trait.specs.Steps.{begun, begun_after};
ghost use Rattle.driver_tests.specs.Begun.{act_of};

use arm_value::Text;
use dealer_trait::{Dealer, DealerStep};
use driver_fakes::ScriptedDealer;
use provider_trait::{Act, Answer};
use std::alloc::Global;
use std::test::Fail;

// The act of the job that is begun of the task after a step, where before the step it was this.
fn act_after(was: Option<Act>, task: u32, step: &DealerStep) -> Option<Act>
    ensures { (job : Option Work) → was ≡ act_of job → result ≡ act_of (begun_after task job step.now) }
{
    match step {
        DealerStep::Begin(job) => {
            if job.task() == task {
                Some(job.act())
            } else {
                was
            }
        }
        DealerStep::Answer(other, _) => { if *other == task { None } else { was } }
        DealerStep::Back(other) => { if *other == task { None } else { was } }
    }
}

/// The act of the job that is begun of the task.
pub fn begun_act(steps: &[DealerStep], task: u32) -> Option<Act>
    ensures { result ≡ act_of (begun task steps.now) }
{
    let mut act = None;
    for step in steps {
        act = act_after(act, task, step);
    }
    act
}

/// Refuses the put that is begun of the task, and answers its deletion by `Gone`.
pub fn finish(alloc: Global, dealer: &mut ScriptedDealer, task: u32) -> Result<(), Fail> {
    match begun_act(dealer.steps(), task) {
        Some(Act::Put) => {
            dealer.answer(task, Answer::Refused(Text::of(alloc, "Quota")?));
            Ok(())
        }
        Some(Act::Delete) => {
            dealer.answer(task, Answer::Gone);
            Ok(())
        }
        None => Err(Fail::from("nothing is begun of the task")),
    }
}

/// Gives the job back that is begun of the task.
pub fn give_back(dealer: &mut ScriptedDealer, task: u32) -> Result<(), Fail> {
    match begun_act(dealer.steps(), task) {
        Some(_) => {
            dealer.back(task);
            Ok(())
        }
        None => Err(Fail::from("nothing is begun of the task")),
    }
}
