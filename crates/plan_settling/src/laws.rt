// What holds of sheets for which there is a plan. A law has no body: its contract is the law.
ghost use Rattle.std.specs.Prelude.{List};
ghost use Rattle.plan_cells.specs.Meaning.{Deployment};
ghost use Rattle.plan_filling.specs.Rows.{Row};
ghost use Rattle.plan_filling.specs.Steps.{Filled};
ghost use Rattle.plan_tasks.specs.Answered.{AreRowsAnswered};
ghost use Rattle.plan_settling.specs.Refused.{AreSettled};

/// Where no row of a filled sheet refuses a plan, each count, condition and name has a value.
pub fn settled_rows()
    ensures { (d : Deployment) (rows : List Row) → Filled d rows → AreSettled rows → AreRowsAnswered rows }
{}
