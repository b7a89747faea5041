// The trait of what says how tasks stand.

use crate::standing::{Aim, Failing, Kind, RootOutput, Standing};
use arm_value::{OutOfMemory, Text};
use board_history::History;
use std::alloc::Global;

/// What says how the tasks of a plan stand at each point of a deployment, by what it knows of it.
///
/// What it knows is true at the point that it was asked at, and at each later one.
pub trait Standings: Drop {
    ghost use Rattle.std.specs.Prelude.{◌≡◌, ◌<◌, ℕ, List, Some, None, length, IfOk, slice_get, option_map};
    ghost use Rattle.reading.specs.Knowledge.{Grows};
    ghost use Rattle.deploy_cells.specs.Cells.{Position};
    ghost use Rattle.board_history.specs.Known.{Table};
    ghost use Rattle.board_history.specs.Tasks.{Task};
    ghost use Rattle.board_history.specs.Planned.{Planned};
    ghost use Rattle.board_history.specs.Events.{is_waiting, progress, IsDone, NoneBegun, Progress};
    ghost use Rattle.board_history.specs.Legal.{IsAct, IsLegal, NothingMay};
    ghost use Rattle.board_history.specs.Outcome.{target_of};
    ghost use Rattle.point_values.specs.Seen.{IsSeen};
    ghost use Rattle.task_standings.specs.Standings.{IsStanding, AreStartNeedsDone, kind_of, Enters, Leaves};
    ghost use Rattle.task_standings.specs.Standings.{scope_at};
    ghost use Rattle.task_standings.specs.Standings.{IsScopeSeen, AreScopesSeen};
    ghost use Rattle.task_standings.specs.Failures.{Tells, IsFailing};
    ghost use Rattle.task_standings.specs.Outputs.{AreOutputs, IsAllSeen};

    /// What is deployed.
    ghost planned: { Self → Planned };

    /// What it knows.
    ghost known: { Self → Table };

    /// What it keeps is as it has to be.
    ghost sound: { Self → Type 0 };

    /// The outputs of the scope that this task leaves are noted, and are known once it is left.
    ghost noted: { Self → ℕ → Type 0 };

    /// What a fault that is returned says of the fault of a task.
    ghost tells: { Tells };

    /// The text of a position of a scope.
    ghost titled: { Planned → Position → List ℕ };

    /// The number of tasks.
    fn count(&self) -> u32
        requires { sound self.now }
        ensures { result ≡ length (planned self.now).tasks };

    /// What the task does.
    fn kind(&self, task: u32) -> Kind
        requires sound { sound self.now }
        requires within { task < length (planned self.now).tasks }
        ensures { option_map kind_of (slice_get (planned self.now).tasks task) ≡ Some result };

    /// What the put or the deletion is for.
    fn aim(&self, alloc: Global, task: u32) -> Result<Aim, OutOfMemory>
        requires sound { sound self.now }
        requires act { (t : Task) × ((slice_get (planned self.now).tasks task ≡ Some t) × IsAct t) }
        ensures { IfOk result (λ a. target_of (planned self.now) task
            ≡ Some (record { act = a.act; id = a.id; api = a.api })) };

    /// The position of the scope that the task enters or leaves, as a text.
    fn place(&self, alloc: Global, task: u32) -> Result<Text, OutOfMemory>
        requires sound { sound self.now }
        requires scope { (q : Position) × (scope_at (planned self.now) task ≡ Some q) }
        ensures { IfOk result (λ t. option_map (titled (planned self.now)) (scope_at (planned self.now) task)
            ≡ Some t) };

    /// How the task stands after this history. It may look at the states that are stored in it. What is known of the
    /// scopes that were entered and left stays known.
    fn standing(
        &mut self,
        alloc: Global,
        history: &History,
        task: u32,
    ) -> Result<Standing, OutOfMemory>
        requires sound { sound self.old }
        requires within { task < length (planned self.old).tasks }
        requires legal { IsLegal (planned self.old) history.now.events }
        requires waits { (progress history.now.events).status task ≡ is_waiting }
        requires needs { AreStartNeedsDone (planned self.old) (progress history.now.events) task }
        requires seen { IsSeen (planned self.old) (progress history.now.events) (known self.old) }
        requires scopes { AreScopesSeen (planned self.old) (progress history.now.events) (known self.old) }
        ensures sound { sound self.new }
        ensures planned { planned self.new ≡ planned self.old }
        ensures seen { IsSeen (planned self.old) (progress history.now.events) (known self.new) }
        ensures grows { Grows (known self.old) (known self.new) }
        ensures stands { IfOk result
            (IsStanding (planned self.old) (progress history.now.events) (known self.new) task) }
        ensures entered { IfOk result (λ s. Enters (planned self.old) task s
            → IsScopeSeen (planned self.old) (known self.new) task) }
        ensures noted { IfOk result (λ s. Leaves (planned self.old) task s → noted self.new task) };

    /// The scope that this task leaves was left.
    fn left(&mut self, history: &History, task: u32)
        requires sound { sound self.old }
        requires noted { noted self.old task }
        requires done { IsDone (progress history.now.events) task }
        requires seen { IsSeen (planned self.old) (progress history.now.events) (known self.old) }
        ensures sound { sound self.new }
        ensures planned { planned self.new ≡ planned self.old }
        ensures seen { IsSeen (planned self.old) (progress history.now.events) (known self.new) }
        ensures grows { Grows (known self.old) (known self.new) }
        ensures left { IsScopeSeen (planned self.old) (known self.new) task };

    /// Why the task cannot begin after this history, in which no answer has refused, no Begin is open and nothing more
    /// may come. It may look at the states that are stored in it.
    fn failing(
        &mut self,
        alloc: Global,
        history: &History,
        task: u32,
    ) -> Result<Failing, OutOfMemory>
        requires sound { sound self.old }
        requires within { task < length (planned self.old).tasks }
        requires legal { IsLegal (planned self.old) history.now.events }
        requires waits { (progress history.now.events).status task ≡ is_waiting }
        requires unrefused { (progress history.now.events).refusal ≡ None }
        requires idle { NoneBegun (progress history.now.events) }
        requires over { NothingMay (planned self.old) (progress history.now.events) }
        requires needs { AreStartNeedsDone (planned self.old) (progress history.now.events) task }
        requires seen { IsSeen (planned self.old) (progress history.now.events) (known self.old) }
        requires scopes { AreScopesSeen (planned self.old) (progress history.now.events) (known self.old) }
        ensures sound { sound self.new }
        ensures planned { planned self.new ≡ planned self.old }
        ensures seen { IsSeen (planned self.old) (progress history.now.events) (known self.new) }
        ensures grows { Grows (known self.old) (known self.new) }
        ensures failing { IfOk result (IsFailing tells (planned self.old) (progress history.now.events) task) };

    /// The outputs of the root that have a value, in the order of the template, where each task is done.
    fn outputs(&self, alloc: Global) -> Result<Vec<RootOutput>, OutOfMemory>
        requires sound { sound self.now }
        requires over { (p : Progress) × IsAllSeen (planned self.now) p (known self.now) }
        ensures { IfOk result (λ os. AreOutputs (planned self.now) (known self.now) os.items) };
}
