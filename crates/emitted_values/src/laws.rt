//! Values with a table of all declarations. A law has at most other laws in its body: its contract is the law.
ghost use Rattle.std.specs.Prelude.{◌≡◌, ◌≤◌, List, Option, ℕ};
ghost use Rattle.bicep_resolved.specs.Source.{SourceTree, ValueTree};
ghost use Rattle.declaration_laws.specs.Emitted.{Frame};
ghost use Rattle.declaration_laws.specs.Sound.{IsSound};
ghost use Rattle.filled_tables.specs.Seen.{Shape, sight, file_in};
ghost use Rattle.tree_building.specs.Templates.{TemplateTree, TemplateValue};
ghost use Rattle.filled_tables.specs.Filled.{IsFilled, emission_sight};
ghost use Rattle.tree_building.specs.Depth.{depth, value_depth};
ghost use Rattle.tree_building.specs.Each.{AreSmall, ValueIsSmall};
ghost use Rattle.tree_building.specs.Sight.{tree, value};
ghost use Rattle.emitted_values.specs.Buildable.{MayBeBuilt, TreeMayBeBuilt};

use filled_tables::laws::{
    filled_tables_give_expressions, trees_become_the_same, values_become_the_same,
};
use measured_trees::laws::{trees_within_the_limits, values_within_the_limits};

/// With a table of all declarations a value becomes what it becomes with what the declarations become.
pub(crate) fn tables_give_values()
    ensures { (s : Shape) → IsFilled s → IsSound (file_in s) → (name : Option (List ℕ)) (v : ValueTree)
        (fs : List Frame) → value (sight s) name v fs ≡ value (emission_sight s) name v fs }
{
    values_become_the_same();
    filled_tables_give_expressions();
}

/// So does one that is no loop.
pub(crate) fn tables_give_trees()
    ensures { (s : Shape) → IsFilled s → IsSound (file_in s) → (e : SourceTree) (fs : List Frame)
        → tree (sight s) e fs ≡ tree (emission_sight s) e fs }
{
    trees_become_the_same();
    filled_tables_give_expressions();
}

/// What is within the limits can be built.
pub(crate) fn values_are_small()
    ensures { (v : TemplateValue) → MayBeBuilt v → ValueIsSmall v × (value_depth v ≤ 119) }
{
    values_within_the_limits();
}

/// What is within the limits can be built.
pub(crate) fn trees_are_small()
    ensures { (e : TemplateTree) → TreeMayBeBuilt e → AreSmall e × (depth e ≤ 119) }
{
    trees_within_the_limits();
}
