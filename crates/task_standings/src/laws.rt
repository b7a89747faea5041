// What holds of tasks that wait for others. A law has no body: its contract is the law.
ghost use Rattle.std.specs.Prelude.{◌≡◌, ℕ, List, Some, map, true, slice_get};
ghost use Rattle.arm_value.specs.Json.{Json};
ghost use Rattle.reading.specs.Knowledge.{Completes, Grows};
ghost use Rattle.deploy_cells.specs.Cells.{World};
ghost use Rattle.board_history.specs.Known.{Table};
ghost use Rattle.board_history.specs.Tasks.{Task};
ghost use Rattle.board_history.specs.Planned.{Planned};
ghost use Rattle.board_history.specs.Events.{Progress, IsDone};
ghost use Rattle.board_history.specs.Points.{IsKnownThen, IsTableOf};
ghost use Rattle.board_history.specs.Readiness.{ready, readiness, needs_now};
ghost use Rattle.history_replays.specs.Past.{StaysDone};
ghost use Rattle.task_standings.specs.Outputs.{AreOutputs, outputs_in, value_of};
ghost use Rattle.task_standings.specs.Standings.{Needs, IsStuck, IsScopeSeen};
ghost use Rattle.task_standings.specs.declared.standing.RootOutput.{RootOutput};

/// A task that needs another, or waits for it, is ready only where that is done, whatever is known.
pub fn needs_come_first()
    ensures { (x : Planned) (p : Progress) (t : Table) → IsKnownThen x p t → (u : ℕ) (task : Task) (body : Json)
        → readiness x t p.status u task ≡ ready body → (v : ℕ) (giver : Task) → slice_get x.tasks v ≡ Some giver
        → Needs x p task giver → IsDone p v }
{}

/// A task that has a value which is none is not ready, whatever is known.
pub fn stuck_is_not_ready()
    ensures { (x : Planned) (p : Progress) (t : Table) → IsKnownThen x p t → (u : ℕ) (task : Task) (body : Json)
        → IsStuck x p task → readiness x t p.status u task ≡ ready body → ⊥ }
{}

/// What a task needs it needs at each later point, and what is none stays none.
pub fn standings_last()
    ensures needs { (x : Planned) (p q : Progress) (task giver : Task) → StaysDone p.status q.status
        → Needs x p task giver → Needs x q task giver }
    ensures stuck { (x : Planned) (p q : Progress) (task : Task) → StaysDone p.status q.status → IsStuck x p task
        → IsStuck x q task }
{}

/// What a task waits for it needs by all that is known.
pub fn needed_by_all()
    ensures { (x : Planned) (p : Progress) (t : Table) → IsTableOf x p t → (task giver : Task)
        → Needs x p task giver → needs_now x t task giver ≡ true }
{}

/// What a table has of a scope a larger table has.
pub fn scopes_stay()
    ensures { (x : Planned) (s t : Table) → Grows s t → (u : ℕ) → IsScopeSeen x s u → IsScopeSeen x t u }
{}

/// The outputs of the root are the same in each world in which all is so that is known.
pub fn outputs_are_so()
    ensures { (x : Planned) (t : Table) (os : List RootOutput) → AreOutputs x t os → (w : World) → Completes t w
        → map value_of os ≡ outputs_in x w }
{}

/// Outputs of the root that are known are those by all that is known.
pub fn outputs_by_all()
    ensures { (x : Planned) (p : Progress) (s t : Table) → IsKnownThen x p s → IsTableOf x p t
        → (os : List RootOutput) → AreOutputs x s os → AreOutputs x t os }
{}
