// The outcome of a deployment that has succeeded. A law has no body: its contract is the law.
ghost use Rattle.std.specs.Prelude.{◌≡◌, List};
ghost use Rattle.deploy_cells.specs.Cells.{Cell, World};
ghost use Rattle.deploy_histories.specs.Planned.{Planned, IsPlanned};
ghost use Rattle.deploy_histories.specs.Events.{Event, at_opening, progress};
ghost use Rattle.deploy_histories.specs.Legal.{IsLegal, HasSucceeded};
ghost use Rattle.deploy_histories.specs.Outcome.{AreGiven};
ghost use Rattle.history_holdings.specs.Opening.{IsOpening};
ghost use Rattle.history_outcomes.specs.Outcomes.{IsOutcome};

use provider_trait::Provider;

/// A history that has succeeded has an outcome, and one only.
pub fn one_outcome<P: Provider>()
    ensures some { (x : Planned) (h : List Event) → IsPlanned x → IsOpening x → IsLegal x h
        → AreGiven P.may x at_opening h → HasSucceeded x (progress h) → (w : World) × IsOutcome P.may x h w }
    ensures alone { (x : Planned) (h : List Event) → IsPlanned x → IsLegal x h → HasSucceeded x (progress h)
        → (w v : World) → IsOutcome P.may x h w → IsOutcome P.may x h v → (c : Cell) → w c ≡ v c }
{}
