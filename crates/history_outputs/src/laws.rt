// What holds of the outputs of a deployment that has succeeded. A law has no body: its contract is the law.
ghost use Rattle.std.specs.Prelude.{◌≡◌, List, map};
ghost use Rattle.deploy_cells.specs.Cells.{World};
ghost use Rattle.plan_cells.specs.Known.{Table};
ghost use Rattle.deploy_histories.specs.Planned.{Planned, IsPlanned};
ghost use Rattle.deploy_histories.specs.Events.{Event, progress};
ghost use Rattle.deploy_histories.specs.Legal.{IsLegal, HasSucceeded};
ghost use Rattle.deploy_histories.specs.Points.{IsTableOf};
ghost use Rattle.history_outcomes.specs.Outcomes.{IsOutcome};
ghost use Rattle.task_standings.specs.Outputs.{AreAllOutputs, outputs_in, value_of};
ghost use Rattle.task_standings.specs.declared.standing.RootOutput.{RootOutput};

use provider_trait::Provider;

/// Once a history has succeeded, there is a table of all that is known.
pub fn all_is_known()
    ensures { (x : Planned) (h : List Event) → IsPlanned x → IsLegal x h → HasSucceeded x (progress h)
        → (t : Table) × IsTableOf x (progress h) t }
{}

/// The outputs of the root are those of the outcome of a history that has succeeded.
pub fn outputs_of_outcomes<P: Provider>()
    ensures { (x : Planned) (h : List Event) → IsPlanned x → IsLegal x h → HasSucceeded x (progress h)
        → (os : List RootOutput) → AreAllOutputs x (progress h) os → (w : World) → IsOutcome P.may x h w
        → map value_of os ≡ outputs_in x w }
{}
