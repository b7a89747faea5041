// What is known of a plan at a point of its deployment.
ghost use Rattle.std.specs.Prelude.{◌≡◌, ◌<◌, length, slice_get, option_map, IfOk, MatchOption, None, Some};
ghost use Rattle.reading.specs.Knowledge.{Grows};
ghost use Rattle.task_aims.specs.Plans.{IsPlanned};
ghost use Rattle.task_aims.specs.Numbers.{AreOfScopes};
ghost use Rattle.deploy_histories.specs.Planned as histories;
ghost use Rattle.deploy_histories.specs.Events.{is_waiting, progress, IsDone};
ghost use Rattle.deploy_histories.specs.Legal.{IsLegal, NothingMay};
ghost use Rattle.task_aims.specs.Planned.{planned_by};
ghost use Rattle.point_values.specs.Seen.{IsSeen};
ghost use Rattle.task_standings.specs.Standings.{kind_of, AreStartNeedsDone, IsStanding, Enters, Leaves, IsScopeSeen};
ghost use Rattle.task_standings.specs.Standings.{AreScopesSeen};
ghost use Rattle.task_standings.specs.Failures.{IsFailing};
ghost use Rattle.plan_standings.specs.Waits.{table_of};
ghost use Rattle.plan_standings.specs.Tells.{tells};
ghost use Rattle.plan_standings.specs.Kept.{planned_of, known_of, IsSound, HasNoted, IsNew, AreFirst};

use crate::failing::task_failing;
use crate::leaving::{Outputs, keep_noted};
use crate::readiness::{count_of, kind_at, task_standing};
use arm_ids::Held;
use arm_value::OutOfMemory;
use board_history::History;
use history_starts::laws::leaves_once;
use point_knowledge::laws::opening_is_seen;
use point_rows::keeping::nothing;
use point_rows::later::Later;
use std::alloc::Global;
use task_aims::{Numbers, Plan, number_tasks};
use task_standings::{Failing, Kind, Standing};
use template_parts::run_out;

/// What is known of a plan at a point of its deployment over what is held.
#[derive(Drop)]
pub struct PlanStandings<'p, 'a> {
    pub(crate) plan: &'p Plan<'a>,
    pub(crate) held: &'p Held,
    pub(crate) numbers: Numbers,
    pub(crate) later: Later,
    // The outputs of the scope that the task leaves which was ready last.
    pub(crate) noted: Option<Outputs>,
}

// The numbers of the tasks, and that nothing became known.
#[derive(Drop)]
struct Parts {
    numbers: Numbers,
    later: Later,
}

// What is kept of a plan at its start.
fn first_parts(alloc: Global, plan: &Plan) -> Result<Option<Parts>, OutOfMemory>
    ensures { IfOk result (λ o. MatchOption o
        (AreOfScopes (table_of plan.now) plan.now.tasks.items plan.now.keys.items → ⊥) (AreFirst plan.now)) }
{
    match number_tasks(alloc, plan)? {
        Some(numbers) => match nothing(alloc, &plan.start.register.table) {
            Ok(later) => Ok(Some(Parts { numbers, later })),
            Err(_) => run_out(numbers),
        },
        None => Ok(None),
    }
}

impl<'p, 'a> PlanStandings<'p, 'a> {
    /// What is known at the start of the deployment. None exactly where the tasks of the plan are not those of the
    /// scopes of its table, each put with a key of its own.
    pub fn new(
        alloc: Global,
        plan: &'p Plan<'a>,
        held: &'p Held,
    ) -> Result<Option<PlanStandings<'p, 'a>>, OutOfMemory>
        requires planned { IsPlanned plan.now held.now }
        requires histories { histories.IsPlanned (planned_by plan.now held.now) }
        ensures { IfOk result (λ o. MatchOption o
            (AreOfScopes (table_of plan.now) plan.now.tasks.items plan.now.keys.items → ⊥)
            (IsNew plan.now held.now)) }
    {
        opening_is_seen();
        match first_parts(alloc, plan)? {
            Some(parts) => Ok(Some(PlanStandings {
                plan,
                held,
                numbers: parts.numbers,
                later: parts.later,
                noted: None,
            })),
            None => Ok(None),
        }
    }

    /// The number of tasks.
    pub fn task_count(&self) -> u32
        requires { IsSound self.now }
        ensures { result ≡ length (planned_of self.now).tasks }
    {
        count_of(self.plan.tasks.as_slice())
    }

    /// What the task does.
    pub fn task_kind(&self, task: u32) -> Kind
        requires sound { IsSound self.now }
        requires within { task < length (planned_of self.now).tasks }
        ensures { option_map kind_of (slice_get (planned_of self.now).tasks task) ≡ Some result }
    {
        kind_at(self.plan.tasks.as_slice(), task)
    }

    /// The readiness of the task after this history. It may look at the states that are stored in it. What is known of
    /// the scopes that were entered and left stays known.
    pub fn task_standing(
        &mut self,
        alloc: Global,
        history: &History,
        task: u32,
    ) -> Result<Standing, OutOfMemory>
        requires sound { IsSound self.old }
        requires within { task < length (planned_of self.old).tasks }
        requires legal { IsLegal (planned_of self.old) history.now.events }
        requires waits { (progress history.now.events).status task ≡ is_waiting }
        requires needs { AreStartNeedsDone (planned_of self.old) (progress history.now.events) task }
        requires seen { IsSeen (planned_of self.old) (progress history.now.events) (known_of self.old) }
        requires scopes { AreScopesSeen (planned_of self.old) (progress history.now.events) (known_of self.old) }
        ensures sound { IsSound self.new }
        ensures planned { planned_of self.new ≡ planned_of self.old }
        ensures seen { IsSeen (planned_of self.old) (progress history.now.events) (known_of self.new) }
        ensures grows { Grows (known_of self.old) (known_of self.new) }
        ensures stands { IfOk result
            (IsStanding (planned_of self.old) (progress history.now.events) (known_of self.new) task) }
        ensures entered { IfOk result (λ s. Enters (planned_of self.old) task s
            → IsScopeSeen (planned_of self.old) (known_of self.new) task) }
        ensures noted { IfOk result (λ s. Leaves (planned_of self.old) task s → HasNoted self.new task) }
    {
        task_standing(
            alloc,
            self.plan,
            &self.numbers,
            self.held,
            history,
            &mut self.later,
            &mut self.noted,
            task,
        )
    }

    /// Why the task cannot begin after this history, in which no answer has refused and by which nothing more may come.
    /// It may look at the states that are stored in it. What is known of the scopes that were entered and left stays
    /// known.
    pub fn task_failing(
        &mut self,
        alloc: Global,
        history: &History,
        task: u32,
    ) -> Result<Failing, OutOfMemory>
        requires sound { IsSound self.old }
        requires within { task < length (planned_of self.old).tasks }
        requires legal { IsLegal (planned_of self.old) history.now.events }
        requires waits { (progress history.now.events).status task ≡ is_waiting }
        requires unrefused { (progress history.now.events).refusal ≡ None }
        requires over { NothingMay (planned_of self.old) (progress history.now.events) }
        requires needs { AreStartNeedsDone (planned_of self.old) (progress history.now.events) task }
        requires seen { IsSeen (planned_of self.old) (progress history.now.events) (known_of self.old) }
        requires scopes { AreScopesSeen (planned_of self.old) (progress history.now.events) (known_of self.old) }
        ensures sound { IsSound self.new }
        ensures planned { planned_of self.new ≡ planned_of self.old }
        ensures seen { IsSeen (planned_of self.old) (progress history.now.events) (known_of self.new) }
        ensures grows { Grows (known_of self.old) (known_of self.new) }
        ensures failing { IfOk result
            (IsFailing tells (planned_of self.old) (progress history.now.events) task) }
    {
        task_failing(
            alloc,
            self.plan,
            &self.numbers,
            self.held,
            history,
            &mut self.later,
            task,
        )
    }

    /// The scope that this task leaves was left.
    pub fn scope_left(&mut self, history: &History, task: u32)
        requires sound { IsSound self.old }
        requires noted { HasNoted self.old task }
        requires done { IsDone (progress history.now.events) task }
        requires seen { IsSeen (planned_of self.old) (progress history.now.events) (known_of self.old) }
        ensures sound { IsSound self.new }
        ensures planned { planned_of self.new ≡ planned_of self.old }
        ensures seen { IsSeen (planned_of self.old) (progress history.now.events) (known_of self.new) }
        ensures grows { Grows (known_of self.old) (known_of self.new) }
        ensures left { IsScopeSeen (planned_of self.old) (known_of self.new) task }
    {
        leaves_once();
        keep_noted(&mut self.later, &mut self.noted);
    }
}
