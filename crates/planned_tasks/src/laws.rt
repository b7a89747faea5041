// What the tasks of a plan are at the start. A law has no body: its contract is the law.
ghost use Rattle.std.specs.Prelude.{◌≡◌, ℕ, true, Some, slice_get};
ghost use Rattle.arm_value.specs.Json.{bool};
ghost use Rattle.arm_ids.specs.Id.{folded_text};
ghost use Rattle.arm_ids.specs.Held.{HeldResource, find};
ghost use Rattle.arm_ids.specs.declared.id.ResourceId.{ResourceId};
ghost use Rattle.deploy_cells.specs.Cells.{Step, Position, included};
ghost use Rattle.plan_cells.specs.Start.{start_world};
ghost use Rattle.plan_cells.specs.Tasks.{put, delete};
ghost use Rattle.deploy_histories.specs.Planned.{Planned, IsPlanned};

/// Each instance that is put is included.
pub fn puts_are_included()
    ensures { (x : Planned) → IsPlanned x → (p : Position) (s : Step) (u : ℕ)
        → slice_get x.tasks u ≡ Some (put p s) → start_world x.known (included p s) ≡ Some (bool true) }
{}

/// What is deleted is held.
pub fn deletes_are_held()
    ensures { (x : Planned) → IsPlanned x → (u : ℕ) (k : ResourceId) → slice_get x.tasks u ≡ Some (delete k)
        → (r : HeldResource) × (find (folded_text k) x.held ≡ Some r) }
{}
