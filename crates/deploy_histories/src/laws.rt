// What holds of the readiness of tasks. A law has no body: its contract is the law.
ghost use Rattle.std.specs.Prelude.{◌≡◌, ◌↔◌, ℕ};
ghost use Rattle.arm_value.specs.Json.{Json};
ghost use Rattle.plan_cells.specs.Known.{Table};
ghost use Rattle.plan_cells.specs.Tasks.{Task};
ghost use Rattle.deploy_histories.specs.Planned.{Planned};
ghost use Rattle.deploy_histories.specs.Events.{Progress};
ghost use Rattle.deploy_histories.specs.Points.{IsKnownThen, IsTableOf};
ghost use Rattle.deploy_histories.specs.Readiness.{Fault, needs_task, at_fault, ready, readiness};
ghost use Rattle.deploy_histories.specs.Readiness.{IsReadyWith, IsHeldUp, IsAtFault};

/// What is known at a point is one table, so a task has one readiness there.
pub fn one_readiness()
    ensures table { (x : Planned) (p : Progress) (s t : Table) → IsTableOf x p s → IsTableOf x p t → s ≡ t }
    ensures readiness { (x : Planned) (p : Progress) (s t : Table) → IsTableOf x p s → IsTableOf x p t
        → (u : ℕ) (task : Task) → readiness x s p.status u task ≡ readiness x t p.status u task }
{}

/// A task that is ready by some of what is known is ready by all of it, with the same body.
pub fn ready_by_all()
    ensures { (x : Planned) (p : Progress) (s t : Table) → IsKnownThen x p s → IsTableOf x p t → (u : ℕ) (task : Task)
        (body : Json) → readiness x s p.status u task ≡ ready body → readiness x t p.status u task ≡ ready body }
{}

/// A task is ready with a body exactly where no Begin of it is open, it is not done, each task that it needs is done,
/// and each of its values is known.
pub fn ready_tasks()
    ensures { (x : Planned) (t : Table) (p : Progress) (u : ℕ) (task : Task) (body : Json)
        → readiness x t p.status u task ≡ ready body ↔ IsReadyWith x t p u task body }
{}

/// A task needs another exactly where no Begin of it is open, it is not done, and that is the first in the plan's order
/// that it needs and that is not done.
pub fn tasks_held_up()
    ensures { (x : Planned) (t : Table) (p : Progress) (u : ℕ) (task : Task) (v : ℕ)
        → readiness x t p.status u task ≡ needs_task v ↔ IsHeldUp x t p u task v }
{}

/// A task is at fault exactly where it needs nothing more, and this is the fault of the first of its values that is not
/// known.
pub fn tasks_at_fault()
    ensures { (x : Planned) (t : Table) (p : Progress) (u : ℕ) (task : Task) (f : Fault)
        → readiness x t p.status u task ≡ at_fault f ↔ IsAtFault x t p u task f }
{}
