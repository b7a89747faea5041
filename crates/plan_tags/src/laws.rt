// What holds of the tags of tasks. A law has no body: its contract is the law.
ghost use Rattle.std.specs.Prelude.{◌≡◌};
ghost use Rattle.plan_cells.specs.Meaning.{Deployment};
ghost use Rattle.plan_cells.specs.Tasks.{Task};
ghost use Rattle.plan_cells.specs.Needs.{needs_by_order};
ghost use Rattle.plan_tags.specs.Tags.{tags_of, asks_of, shares};

/// A task needs another, where this needs no reading, exactly where the other has a tag for which the one asks.
pub fn needs_by_tags()
    ensures { (d : Deployment) (u v : Task) → needs_by_order d u v ≡ shares (asks_of d u) (tags_of d v) }
{}
