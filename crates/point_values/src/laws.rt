// What holds of what is seen at a point. A law has no body: its contract is the law.
ghost use Rattle.std.specs.Prelude.{◌≡◌, ℕ, true, List, None, Some, slice_get};
ghost use Rattle.plan_cells.specs.Known.{Table};
ghost use Rattle.plan_cells.specs.Tasks.{Task};
ghost use Rattle.history_laws.specs.Planned.{Planned};
ghost use Rattle.history_laws.specs.Events.{Event, Progress, IsDone, is_waiting, after_all};
ghost use Rattle.history_laws.specs.Values.{task_values, body_of};
ghost use Rattle.history_laws.specs.Readiness.{first_fault, needs_first, readiness, ready};
ghost use Rattle.history_laws.specs.Legal.{IsLegalFrom};
ghost use Rattle.point_values.specs.Seen.{IsSeen};

/// What is seen at a point is seen at each later point.
pub fn seen_stays()
    ensures { (x : Planned) (p : Progress) (t : Table) (es : List Event) → IsSeen x p t → IsLegalFrom x p es
        → IsSeen x (after_all es p) t }
{}

/// A task that waits is ready where the tasks that it needs by what is known at the start are done, and each of its
/// values is known by what is seen.
pub fn seen_tasks_are_ready()
    ensures { (x : Planned) (p : Progress) (t : Table) → IsSeen x p t → (u : ℕ) (task : Task)
        → p.status u ≡ is_waiting
        → ((v : ℕ) (other : Task) → slice_get x.tasks v ≡ Some other → needs_first x task other ≡ true → IsDone p v)
        → first_fault x.deployment t (task_values x.deployment task) ≡ None
        → readiness x t p.status u task ≡ ready (body_of x t task) }
{}
