// What holds of boards. A law has no body: its contract is the law.
ghost use Rattle.std.specs.Prelude.{◌≡◌, ◌∷◌, ℕ, List};
ghost use Rattle.plan_cells.specs.Known.{Table};
ghost use Rattle.deploy_histories.specs.Planned.{Planned};
ghost use Rattle.deploy_histories.specs.Endings.{Stands, IsEnding, circular};
ghost use Rattle.deploy_histories.specs.Events.{Progress};
ghost use Rattle.deploy_histories.specs.Points.{IsTableOf};
ghost use Rattle.deploy_histories.specs.Readiness.{Fault, at_fault};
ghost use Rattle.task_standings.specs.Failures.{IsFaulty};
ghost use Rattle.deploy_core.specs.Endings.{IsCircular};

/// By all that is known, the fault of an ending is that of a task that needs nothing more, and the tasks of a circle
/// need each other.
pub fn endings_are_true()
    ensures faulty { (x : Planned) (p : Progress) (t : Table) → IsTableOf x p t → (u : ℕ) (f : Fault)
        → IsFaulty x p u f → Stands x p u (at_fault f) }
    ensures circular { (x : Planned) (p : Progress) (t : Table) → IsTableOf x p t → (u : ℕ) (us : List ℕ)
        → IsCircular x p (u ∷ us) → IsEnding x p (circular u us) }
{}
