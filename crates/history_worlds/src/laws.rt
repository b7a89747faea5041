// The desired state that a history leads to. A law has no body: its contract is the law.
ghost use Rattle.std.specs.Prelude.{◌≡◌, List};
ghost use Rattle.deploy_cells.specs.Cells.{World};
ghost use Rattle.deploy_cells.specs.Puts.{AreAllowed};
ghost use Rattle.plan_cells.specs.Meaning.{bodies};
ghost use Rattle.plan_cells.specs.Desired.{kinds, Satisfies};
ghost use Rattle.deploy_histories.specs.Planned.{Planned, IsPlanned};
ghost use Rattle.deploy_histories.specs.Events.{Event, at_opening, progress};
ghost use Rattle.deploy_histories.specs.Legal.{IsLegal, HasSucceeded};
ghost use Rattle.deploy_histories.specs.Answers.{answers_of};
ghost use Rattle.deploy_histories.specs.Outcome.{stores_by, AreGiven, BelongsTo};

use provider_trait::Provider;

/// A history that has succeeded leads to a desired state of the template: providers may have answered so, and it
/// belongs to the answers of the history.
pub fn a_desired_state<P: Provider>()
    ensures { (x : Planned) (h : List Event) → IsPlanned x → IsLegal x h → AreGiven P.may x at_opening h
        → HasSucceeded x (progress h) → (w : World) × (Satisfies x.deployment x.held w
        × (AreAllowed (stores_by P.may) x.deployment.place (kinds x.deployment) (bodies x.deployment) w
        × BelongsTo x w (answers_of h))) }
{}
