// What holds of the reasons why a deployment has no plan. A law has no body: its contract is the law.
ghost use Rattle.std.specs.Prelude.{◌≡◌, ◌<◌, ℕ, false, List, length};
ghost use Rattle.deploy_cells.specs.Cells.{Step, Position, World};
ghost use Rattle.deploy_cells.specs.Puts.{ResourcesDiffer, DeploymentsDiffer};
ghost use Rattle.plan_filling.specs.Meaning.{Deployment};
ghost use Rattle.plan_filling.specs.Desired.{kinds};
ghost use Rattle.plan_filling.specs.Rows.{Row, row_at};
ghost use Rattle.plan_filling.specs.Steps.{Filled};
ghost use Rattle.plan_tasks.specs.Answered.{is_answered};
ghost use Rattle.plan_refusals.specs.Refusals.{IsUnanswered};
ghost use Rattle.plan_refusals.specs.Keys.{ShareKey, ShareNestedKey};

/// A count, a condition or a name of a filled sheet that has no value reads a state, or is known to have none.
pub fn unanswered_rows_refuse()
    ensures { (d : Deployment) (rows : List Row) (j : ℕ) → Filled d rows → j < length rows
        → is_answered (row_at rows j) ≡ false → IsUnanswered d rows (row_at rows j).cell }
{}

/// Where no two instances share a key, and no two nested deployments of a scope, the keys of a world differ as those of
/// a desired state do.
pub fn keys_differ()
    ensures resources { (d : Deployment) (w : World)
        → ((p : Position) (s : Step) (q : Position) (t : Step) → ShareKey d w p s q t → ⊥)
        → ResourcesDiffer d.place (kinds d) w }
    ensures deployments { (d : Deployment) (w : World)
        → ((p : Position) (s t : Step) → ShareNestedKey d w p s t → ⊥) → DeploymentsDiffer d.place (kinds d) w }
{}
