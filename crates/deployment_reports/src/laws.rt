// What holds of refusals. A law has no body: its contract is the law.

ghost use Rattle.std.specs.Prelude.{◌≡◌, ◌<◌, ℕ, List, Some, length};
ghost use Rattle.deploy_histories.specs.Events.{Event, progress};
ghost use Rattle.deploy_histories.specs.Legal.{IsLegal};
ghost use Rattle.deploy_histories.specs.Planned.{Planned};

/// What a legal history refused first is a task.
pub fn refusals_are_of_tasks()
    ensures { (x : Planned) (h : List Event) → IsLegal x h → (u : ℕ) (code : List ℕ)
        → (progress h).refusal ≡ Some (record { task = u; code = code }) → u < length x.tasks }
{}
