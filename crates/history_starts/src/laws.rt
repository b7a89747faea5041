// What a plan is at the start. A law has no body: its contract is the law.
ghost use Rattle.std.specs.Prelude.{◌≡◌, ℕ, Some, slice_get};
ghost use Rattle.deploy_cells.specs.Cells.{Step, Position, deployments};
ghost use Rattle.plan_cells.specs.Tasks.{put, leave};
ghost use Rattle.deploy_histories.specs.Planned.{Planned, IsPlanned, IsAnswered};

/// Each put is listed once.
pub fn puts_once()
    ensures { (x : Planned) → IsPlanned x → (p : Position) (s : Step) (u v : ℕ)
        → slice_get x.tasks u ≡ Some (put p s) → slice_get x.tasks v ≡ Some (put p s) → u ≡ v }
{}

/// The leave of each scope is listed once.
pub fn leaves_once()
    ensures { (x : Planned) → IsPlanned x → (p : Position) (u v : ℕ)
        → slice_get x.tasks u ≡ Some (leave p) → slice_get x.tasks v ≡ Some (leave p) → u ≡ v }
{}

/// Which nested deployments a scope has is known.
pub fn lists_are_known()
    ensures { (x : Planned) → IsPlanned x → (p : Position) → IsAnswered x (deployments p) }
{}
