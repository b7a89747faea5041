// A dealer of many deletions that need nothing of each other.

ghost use Rattle.std.specs.Prelude.{◌≡◌, ◌<◌, ◌≤◌, ◌+◌, ◌*◌, ◌^◌, ℕ, length, replicate, IfOk};
ghost use Rattle.std.specs.Vec.{vec_capacity};
ghost use Rattle.dealer_trait.specs.Steps.{AsksFor, HasEnd, NoneBegun};
ghost use Rattle.crew_times.specs.Marks.{steps_of};
ghost use Rattle.driver_fakes.specs.Stages.{stage_at, stage_of, count_open};
ghost use Rattle.driver_fakes.specs.declared.stage.Stage.TheVariants.{Waiting};

use crate::mark::{Mark, add};
use arm_value::{OutOfMemory, Text, Value};
use dealer_trait::{Dealer, Next};
use driver_fakes::Stage;
use provider_trait::{Act, Answer, Job, JobParts};
use std::alloc::{AllocError, Global};
use std::snapshot::Snapshot;

/// A dealer of deletions that are numbered from 0 and begun in that order, each once. Each of its calls
/// takes constant time.
#[derive(Drop)]
pub struct Row {
    stages: Vec<Stage>,
    marks: Vec<Mark>,
    // How many Begins are open.
    opened: usize,
    // The task that is begun next.
    next: usize,
    ghost few: { length stages.items ≤ 2 ^ 32 },
    ghost within: { next ≤ length stages.items },
    ghost stages_are: { (task : ℕ) → stage_at stages.items task ≡ stage_of task (steps_of marks.items) },
    ghost counted: { opened ≡ count_open stages.items },
    ghost later: { (task : ℕ) → next ≤ task → stage_at stages.items task ≡ Waiting },
    ghost used: { length marks.items + opened ≤ 2 * next },
    ghost room: { 2 * length stages.items ≤ vec_capacity marks },
}

impl Row {
    /// A dealer of so many deletions.
    pub fn new(alloc: Global, jobs: u32) -> Result<Row, OutOfMemory>
        ensures { IfOk result (λ r. NoneBegun (steps_of r.marks.items)) }
    {
        match waiting(alloc, jobs as usize) {
            Ok(stages) => match Vec::with_capacity(alloc, 2 * jobs as usize) {
                Ok(marks) => Ok(Row {
                    stages,
                    marks,
                    opened: 0,
                    next: 0,
                }),
                Err(_) => run_out(stages),
            },
            Err(_) => Err(AllocError),
        }
    }

    // Begins the next task.
    fn begin(&mut self, alloc: Global, worker: u32) -> Result<Next, OutOfMemory>
        requires { self.old.next < length self.old.stages.items }
        ensures asked { AsksFor worker (steps_of self.old.marks.items) (steps_of self.new.marks.items) result }
        ensures begun { HasEnd ⊥ result }
    {
        match deletion(alloc, self.next as u32, worker) {
            Ok(job) => {
                add(&mut self.marks, Mark::Begun(Snapshot::of(&job)));
                self.stages[self.next] = Stage::Open;
                self.opened += 1;
                self.next += 1;
                Ok(Next::Begun(job))
            }
            Err(_) => Err(AllocError),
        }
    }
}

// So many tasks that wait.
fn waiting(alloc: Global, count: usize) -> Result<Vec<Stage>, OutOfMemory>
    ensures { IfOk result (λ v. v.items ≡ replicate count Waiting) }
{
    vec![in alloc; Stage::Waiting; count]
}

// Out of memory; the part is dropped.
fn run_out<T: Drop, R>(_part: T) -> Result<R, OutOfMemory>
    ensures { IfOk result (λ _. ⊥) }
{
    Err(AllocError)
}

// The deletion with the number of this task, for this worker.
fn deletion(alloc: Global, task: u32, worker: u32) -> Result<Job, OutOfMemory>
    ensures { IfOk result (λ j. (j.task ≡ task) × (j.worker ≡ worker)) }
{
    let id = Text::of(
        alloc,
        "/subscriptions/s/resourceGroups/g/providers/Demo.Lab/things/t",
    )?;
    match Text::of(alloc, "") {
        Ok(api) => Job::new(
            alloc,
            JobParts {
                task,
                worker,
                act: Act::Delete,
                id,
                api,
                body: Value::Null,
            },
        ),
        Err(_) => run_out(id),
    }
}

impl Dealer for Row {
    ghost use Rattle.std.specs.Prelude.{◌≡◌, ◌++◌, ◌∷◌, [], length};
    ghost use Rattle.dealer_trait.specs.Steps.{answered, given_back, IsBegun, MayAnswer, AsksFor, HasEnd};
    ghost use Rattle.crew_times.specs.Marks.{steps_of};

    ghost Fixed = { Unit {0} };

    ghost fixed = { λ _. tt };

    ghost steps = { λ r. steps_of r.marks.items };

    ghost is_end = { λ r. (r.next ≡ length r.stages.items) × (r.opened ≡ 0) };

    fn next(&mut self, alloc: Global, worker: u32) -> Result<Next, OutOfMemory> {
        if self.next < self.stages.len() {
            return self.begin(alloc, worker);
        }
        if self.opened > 0 {
            return Ok(Next::Wait);
        }
        Ok(Next::End)
    }

    fn answer(&mut self, task: u32, answer: Answer) {
        add(&mut self.marks, Mark::Answered(task, answer));
        self.stages[task as usize] = Stage::Done;
        self.opened -= 1;
    }

    fn back(&mut self, task: u32) {
        add(&mut self.marks, Mark::GivenBack(task));
        self.stages[task as usize] = Stage::Waiting;
        self.opened -= 1;
    }
}
