// What holds of deployments that were run. A law has no body, or another law in it: its contract is the law.

ghost use Rattle.std.specs.Prelude.{◌≡◌, [], List};
ghost use Rattle.dealer_trait.specs.declared.dealer_step.DealerStep.{DealerStep};
ghost use Rattle.deploy_core.specs.Steps.{steps_of, until_crash};
ghost use Rattle.deploy_histories.specs.Events.{Event, at_opening};
ghost use Rattle.deploy_histories.specs.Legal.{IsLegal};
ghost use Rattle.deploy_histories.specs.Outcome.{AreGiven};
ghost use Rattle.deploy_histories.specs.Planned.{Planned};
ghost use Rattle.deployment_runs.specs.Runs.{HasRun};
ghost use Rattle.seat_calls.specs.Dones.{Made};
ghost use Rattle.seat_calls.specs.declared.seat.Seat.{Seat};
ghost use Rattle.run_reports.specs.Sides.{MadeCalls, sides};

use deployment_runs::laws::answers_are_given;
use provider_trait::Provider;

/// What was run of seats was run of their sides.
pub fn seats_have_sides<P: Provider>()
    ensures { (ss : List DealerStep) (old new : List (Seat P))
        → HasRun (Made P.may P.tells P.calls P.faults) ss old new
        → HasRun (MadeCalls P.may P.tells) ss (sides P.faults P.calls old) (sides P.faults P.calls new) }
{}

/// The answers of a history without a crash that was run are answers that the providers may give.
pub fn answers_were_given<P: Provider>()
    ensures { (x : Planned) (h : List Event) (old new : List (Seat P)) → IsLegal x h → until_crash h ≡ []
        → HasRun (Made P.may P.tells P.calls P.faults) (steps_of x h) old new → AreGiven P.may x at_opening h }
{
    answers_are_given::<P>();
}
