// What holds of what an expression sees. A law has no body: its contract is the law.
ghost use Rattle.arm_env.specs.Look.{Looking};
ghost use Rattle.reading.specs.Knowledge.{told};
ghost use Rattle.template_tree.specs.View.{template_tree};
ghost use Rattle.deploy_cells.specs.Followed.{followed};
ghost use Rattle.plan_sight.specs.Sites.{looked_up};
ghost use Rattle.plan_table.specs.Rows.{status_of, table};
ghost use Rattle.plan_sights.specs.Resolved.{IsResolved};
ghost use Rattle.plan_sights.specs.Seats.{Seat, site_of, seen_in, known_in};

/// What the evaluator returns by what is known of the cells that it looks at is what the reading yields that follows
/// the readings in the places of these cells. Where it waits for a cell, that reading stops as the cell's does.
pub fn looks_are_resolved<A>()
    ensures { (s : Seat) (r : Looking A) → IsResolved (seen_in s) (told (known_in s) r)
        (told (table (status_of s.0.0)) (followed (looked_up (template_tree s.0.1) s.1.0.1 (site_of s)) r)) }
{}
