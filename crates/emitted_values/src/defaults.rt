//! The defaults of the parameters of a template.
ghost use Rattle.std.specs.Prelude.{[], IfOk};
ghost use Rattle.arm_value.specs.View.{json};
ghost use Rattle.bicep_resolved.specs.View.{source_of};
ghost use Rattle.declaration_laws.specs.Sound.{IsSound};
ghost use Rattle.filled_tables.specs.Seen.{file_in};
ghost use Rattle.emitted_files.specs.Values.{IsTree};
ghost use Rattle.filled_tables.specs.Filled.{IsFilled, emission_sight};
ghost use Rattle.measured_trees.specs.Extremes.{tree_extremes};
ghost use Rattle.measured_trees.specs.Measures.{IsOf};
ghost use Rattle.tree_building.specs.Sight as spec;
ghost use Rattle.emitted_values.specs.Buildable.{TreeMayBeBuilt};

use crate::laws::{tables_give_trees, trees_are_small};
use crate::passes::{made_tree, tree_measure};
use arm_value::{OutOfMemory, Value};
use bicep_resolved::Source;
use filled_tables::Table;
use measured_trees::Measure;
use std::alloc::Global;

/// The default of a parameter, which is within the limits of templates, with a table of all declarations of its file.
///
/// # Errors
///
/// `OutOfMemory`.
pub fn default_value(alloc: Global, table: &Table, e: &Source) -> Result<Value, OutOfMemory>
    requires filled { IsFilled table.now }
    requires sound { IsSound (file_in table.now) }
    requires within { TreeMayBeBuilt (spec.tree (emission_sight table.now) (source_of e.now) []) }
    ensures { IfOk result (λ v. IsTree (spec.tree (emission_sight table.now) (source_of e.now) []) (json v)) }
{
    tables_give_trees();
    trees_are_small();
    made_tree(alloc, table, e, &[])
}

/// How much of the limits a default takes.
///
/// # Errors
///
/// `OutOfMemory`.
pub fn measured_default(alloc: Global, table: &Table, e: &Source) -> Result<Measure, OutOfMemory>
    requires filled { IsFilled table.now }
    requires sound { IsSound (file_in table.now) }
    ensures { IfOk result (IsOf (tree_extremes (spec.tree (emission_sight table.now) (source_of e.now) []))) }
{
    tables_give_trees();
    tree_measure(alloc, table, e, &[])
}
