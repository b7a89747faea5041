// What holds of tables. A law has no body: its contract is the law.
ghost use Rattle.std.specs.Prelude.{◌≡◌, ◌<◌, ℕ, length};
ghost use Rattle.plan_cells.specs.Meaning.{meaning, plain};
ghost use Rattle.plan_table.specs.declared.table.Table.{Table};
ghost use Rattle.plan_table.specs.Lines.{cell_of, line_at};
ghost use Rattle.plan_table.specs.Whole.{whole_of, scopes_of};
ghost use Rattle.plan_sight.specs.Ready.{IsReady, told_in};

/// A cell that is listed is there by its parent, so what is told of it is what is told of its own reading.
pub fn listed_cells_are_told()
    ensures { (t : Table) (j : ℕ) → IsReady t → j < length t.lines.items
        → told_in t (meaning (whole_of t) (cell_of (scopes_of t) (line_at t.lines.items j).spot))
        ≡ told_in t (plain (whole_of t) (cell_of (scopes_of t) (line_at t.lines.items j).spot)) }
{}
