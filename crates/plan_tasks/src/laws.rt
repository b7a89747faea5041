// What holds of the tasks of a deployment. A law has no body: its contract is the law.
ghost use Rattle.std.specs.Prelude.{◌≡◌, List, []};
ghost use Rattle.reading.specs.Knowledge.{told, value};
ghost use Rattle.plan_cells.specs.Known.{Table};
ghost use Rattle.plan_cells.specs.Meaning.{Deployment};
ghost use Rattle.plan_cells.specs.Tasks.{template_tasks};
ghost use Rattle.plan_table.specs.Rows.{Row, status_of};
ghost use Rattle.plan_table.specs.Steps.{Filled};
ghost use Rattle.plan_table.specs.Final.{final, AreGatesKnown};
ghost use Rattle.plan_tasks.specs.Answered.{AreAnswered, AreRowsAnswered};
ghost use Rattle.plan_tasks.specs.InOrder.{scope_in_order};

/// Where each row of a count, a condition or a name of a sheet that is filled has a value, each count, condition and
/// name of the deployment that is there has one by what is known at the start.
pub fn answered_rows()
    ensures gates { (d : Deployment) (rows : List Row) → Filled d rows → AreRowsAnswered rows
        → AreGatesKnown (status_of rows) }
    ensures cells { (d : Deployment) (rows : List Row) → Filled d rows → AreRowsAnswered rows
        → AreAnswered d (final (status_of rows)) }
{}

/// Where each count and condition has a value, the tasks of the scopes are known, and are those in their order.
pub fn tasks_are_known()
    ensures { (d : Deployment) (q : Table) → AreAnswered d q
        → told q (template_tasks [] d.template) ≡ value (scope_in_order q [] d.template) }
{}
