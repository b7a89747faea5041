// What holds of sheets. A law has no body: its contract is the law.
ghost use Rattle.std.specs.Prelude.{◌≤◌, ◌^◌, List, length, map};
ghost use Rattle.plan_cells.specs.Meaning.{Deployment};
ghost use Rattle.plan_cells.specs.Children.{NamesDiffer, roots};
ghost use Rattle.plan_filling.specs.Rows.{Row, fresh, status_of};
ghost use Rattle.plan_filling.specs.Sound.{Sound};
ghost use Rattle.plan_filling.specs.Steps.{NoneOpen, Filled};
ghost use Rattle.plan_filling.specs.Final.{final, AreGatesKnown, IsFinal};

/// A sheet that has the cells of the root, all new, may be filled.
pub fn new_sheets_are_sound()
    ensures sound { (d : Deployment) → NamesDiffer d.template → length (map fresh (roots d)) ≤ 2 ^ 32
        → Sound d (map fresh (roots d)) }
    ensures none_open { (d : Deployment) → NoneOpen (map fresh (roots d)) }
{}

/// A sheet that is filled, and whose counts and conditions are known, has all that is known at the start and nothing
/// else, and each other cell leads to a state.
pub fn filled_sheets_have_what_is_known()
    ensures { (d : Deployment) (rows : List Row) → Filled d rows → AreGatesKnown (status_of rows)
        → IsFinal d (final (status_of rows)) }
{}
