// What bodies are. A law has no body: its contract is the law.
ghost use Rattle.std.specs.Prelude.{◌≡◌, Option, Some};
ghost use Rattle.arm_value.specs.Json.{Json};
ghost use Rattle.provider_trait.specs.Act.{FitsAct};
ghost use Rattle.provider_trait.specs.declared.act.Act.TheVariants.{Put};
ghost use Rattle.reading.specs.Knowledge.{value, told};
ghost use Rattle.deploy_cells.specs.Cells.{Step, Position};
ghost use Rattle.plan_cells.specs.Known.{Table};
ghost use Rattle.plan_cells.specs.Meaning.{Deployment};
ghost use Rattle.deploy_histories.specs.Values.{body_reading};

/// The body of an instance, by any part of what is known, is an object that nests at most 100: it fits a put.
pub fn bodies_fit()
    ensures { (d : Deployment) (t : Table) (p : Position) (s : Step) (j : Json)
        → told t (body_reading d p s) ≡ value (Some j) → FitsAct Put j }
{}
