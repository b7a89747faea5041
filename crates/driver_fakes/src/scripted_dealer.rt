// A dealer that deals jobs by their needs.

ghost use Rattle.std.specs.Prelude.{◌≡◌, ◌<◌, ◌≤◌, ◌+◌, ◌^◌, ℕ, [], length, IfOk};
ghost use Rattle.std.specs.Vec.{vec_capacity};
ghost use Rattle.driver_fakes.specs.Stages.{stage_at, stage_of, count_open, has_refusal};
ghost use Rattle.driver_fakes.specs.declared.stage.Stage.TheVariants.{Done};

use crate::dealt::{dealt, has_refused, push_begin, push_step, run_out, waiting};
use crate::readiness::{first_undone, least_ready};
use crate::stage::Stage;
use arm_value::OutOfMemory;
use dealer_trait::{Dealer, DealerStep, Next};
use provider_trait::{Answer, Job};
use std::alloc::Global;

/// A dealer that begins the least task that may begin: one without an answer, of which no Begin is
/// open, and of which every need has its answer. After a refusal it begins nothing.
///
/// The tasks are numbered by the places of their jobs, from 0. A job that is given back may begin
/// again.
#[derive(Drop)]
pub struct ScriptedDealer {
    jobs: Vec<Job>,
    needs: Vec<Vec<u32>>,
    stages: Vec<Stage>,
    steps: Vec<DealerStep>,
    // How many Begins are open.
    opened: usize,
    // All tasks before this one are done.
    low: usize,
    is_refused: bool,
    ghost few: { length jobs.items ≤ 2 ^ 32 },
    ghost sizes: { length stages.items ≡ length jobs.items },
    ghost stages_are: { (task : ℕ) → stage_at stages.items task ≡ stage_of task steps.items },
    ghost counted: { opened ≡ count_open stages.items },
    ghost room: { length steps.items + opened ≤ vec_capacity steps },
    ghost low_within: { low ≤ length stages.items },
    ghost low_done: { (task : ℕ) → task < low → stage_at stages.items task ≡ Done },
    ghost refused_is: { is_refused ≡ has_refusal steps.items },
}

impl ScriptedDealer {
    ghost use Rattle.std.specs.Prelude.{◌++◌, ◌∷◌, OnOk, OnErr, false};
    ghost use Rattle.dealer_trait.specs.Steps.{begin};
    ghost use Rattle.dealer_trait.specs.declared.next.Next.{Next};
    ghost use Rattle.driver_fakes.specs.Dealing.{IsLeast, IsOver, Pauses, Begins};
    ghost use Rattle.driver_fakes.specs.ScriptedDealers.{hand_of};

    /// A dealer of these jobs, of which the one at each place needs the tasks that are listed at that
    /// place. The numbers that the jobs have for their tasks and workers are not used.
    pub fn new(
        alloc: Global,
        jobs: Vec<Job>,
        needs: Vec<Vec<u32>>,
    ) -> Result<ScriptedDealer, OutOfMemory>
        requires { length jobs.items ≤ 2 ^ 32 }
        ensures { IfOk result (λ d. hand_of d
            ≡ record { jobs = jobs.items; needs = needs.items; steps = [] }) }
    {
        match waiting(alloc, jobs.len()) {
            Ok(stages) => Ok(ScriptedDealer {
                jobs,
                needs,
                stages,
                steps: Vec::new(alloc),
                opened: 0,
                low: 0,
                is_refused: false,
            }),
            Err(_) => run_out((jobs, needs)),
        }
    }

    /// Its steps, oldest first.
    pub fn steps(&self) -> &[DealerStep]
        ensures { result.now ≡ self.now.steps.items }
    {
        self.steps.as_slice()
    }

    // Waits while a Begin is open, and else ends.
    fn pause(&self) -> Next
        ensures { Pauses (hand_of self.now) result }
    {
        if self.opened > 0 {
            Next::Wait
        } else {
            Next::End
        }
    }

    // Begins the task of this number.
    fn begin(&mut self, alloc: Global, task: usize, worker: u32) -> Result<Next, OutOfMemory>
        requires { IsLeast (hand_of self.old) task }
        ensures { Begins (hand_of self.old) (hand_of self.new) task worker result }
    {
        let job = dealt(alloc, &self.jobs[task], task as u32, worker)?;
        match job.copy(alloc) {
            Ok(copy) => match push_begin(&mut self.steps, self.opened, copy) {
                Ok(()) => {
                    self.stages[task] = Stage::Open;
                    self.opened += 1;
                    Ok(Next::Begun(job))
                }
                Err(_) => run_out(job),
            },
            Err(_) => run_out(job),
        }
    }
}

impl Dealer for ScriptedDealer {
    ghost use Rattle.std.specs.Prelude.{◌++◌, ◌∷◌, []};
    ghost use Rattle.dealer_trait.specs.Steps.{answered, given_back, IsBegun, MayAnswer, AsksFor, HasEnd};
    ghost use Rattle.driver_fakes.specs.Dealing.{Deals, HasEnded, Keeps};
    ghost use Rattle.driver_fakes.specs.ScriptedDealers.{hand_of};

    ghost Fixed = { Unit {0} };

    ghost fixed = { λ _. tt };

    ghost steps = { λ d. d.steps.items };

    ghost is_end = { λ d. HasEnded (hand_of d) };

    fn next(&mut self, alloc: Global, worker: u32) -> Result<Next, OutOfMemory>
        ensures asked { AsksFor worker self.old.steps.items self.new.steps.items result }
        ensures end { HasEnd (HasEnded (hand_of self.new)) result }
        ensures fixed { ◌≡◌ {A = Unit {0}} tt tt }
        ensures deals { Deals (hand_of self.old) worker result }
        ensures keeps { Keeps (hand_of self.old) (hand_of self.new) }
    {
        self.low = first_undone(self.stages.as_slice(), self.low);
        if self.is_refused {
            return Ok(self.pause());
        }
        match least_ready(self.stages.as_slice(), self.needs.as_slice(), self.low) {
            Some(task) => self.begin(alloc, task, worker),
            None => Ok(self.pause()),
        }
    }

    fn answer(&mut self, task: u32, answer: Answer)
        requires { MayAnswer task answer self.old.steps.items }
        ensures steps { self.new.steps.items ≡ self.old.steps.items ++ answered task answer ∷ [] }
        ensures keeps { Keeps (hand_of self.old) (hand_of self.new) }
    {
        self.is_refused = has_refused(&answer, self.is_refused);
        push_step(&mut self.steps, DealerStep::Answer(task, answer));
        self.stages[task as usize] = Stage::Done;
        self.opened -= 1;
    }

    fn back(&mut self, task: u32)
        requires { IsBegun task self.old.steps.items }
        ensures steps { self.new.steps.items ≡ self.old.steps.items ++ given_back task ∷ [] }
        ensures keeps { Keeps (hand_of self.old) (hand_of self.new) }
    {
        push_step(&mut self.steps, DealerStep::Back(task));
        self.stages[task as usize] = Stage::Waiting;
        self.opened -= 1;
    }
}
