// What is held after a deployment that has succeeded. A law has no body: its contract is the law.
ghost use Rattle.std.specs.Prelude.{◌≡◌, List};
ghost use Rattle.arm_ids.specs.Held.{HeldResource};
ghost use Rattle.deploy_cells.specs.Cells.{World};
ghost use Rattle.plan_cells.specs.Desired.{Satisfies};
ghost use Rattle.deploy_histories.specs.Planned.{Planned, IsPlanned};
ghost use Rattle.deploy_histories.specs.Events.{Event, progress};
ghost use Rattle.deploy_histories.specs.Legal.{IsLegal, HasSucceeded};
ghost use Rattle.deploy_histories.specs.Answers.{answers_of};
ghost use Rattle.deploy_histories.specs.Outcome.{BelongsTo, IsHeldAfter, held_after};
ghost use Rattle.history_holdings.specs.Opening.{IsOpening};

/// After a history that has succeeded, the opening with each stored resource in its place and without each that is
/// gone is what is held after a deployment to the desired state of its answers; and nothing else is.
pub fn held_as_desired()
    ensures is { (x : Planned) (h : List Event) → IsPlanned x → IsOpening x → IsLegal x h
        → HasSucceeded x (progress h) → (w : World) → Satisfies x.deployment x.held w → BelongsTo x w (answers_of h)
        → IsHeldAfter x.deployment x.mode x.held w (held_after x (answers_of h) x.held) }
    ensures alone { (x : Planned) (h : List Event) → IsPlanned x → IsOpening x → IsLegal x h
        → HasSucceeded x (progress h) → (w : World) → Satisfies x.deployment x.held w → BelongsTo x w (answers_of h)
        → (now : List HeldResource) → IsHeldAfter x.deployment x.mode x.held w now
        → now ≡ held_after x (answers_of h) x.held }
{}
