// What holds of deployments that were run. A law has no body: its contract is the law.

ghost use Rattle.deploy_histories.specs.Events.{Event, at_opening};
ghost use Rattle.deploy_histories.specs.Legal.{IsLegal};
ghost use Rattle.deploy_histories.specs.Outcome.{AreGiven};
ghost use Rattle.deploy_histories.specs.Planned.{Planned};
ghost use Rattle.deploy_core.specs.Steps.{steps_of, until_crash};
ghost use Rattle.seat_calls.specs.Dones.{Made};
ghost use Rattle.seat_calls.specs.declared.seat.Seat.{Seat};
ghost use Rattle.std.specs.Prelude.{List};
ghost use Rattle.deployment_runs.specs.Runs.{HasRun};

use provider_trait::Provider;

/// The answers of a history that was run are answers that the providers may give, where those before the last crash
/// are.
pub fn answers_are_given<P: Provider>()
    ensures { (x : Planned) (h : List Event) (old new : List (Seat P)) → IsLegal x h
        → HasRun (Made P.may P.tells P.calls P.faults) (steps_of x h) old new
        → AreGiven P.may x at_opening (until_crash h) → AreGiven P.may x at_opening h }
{}
