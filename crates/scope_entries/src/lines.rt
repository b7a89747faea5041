// The lines of the parameters and variables of a scope.
ghost use Rattle.std.specs.Prelude.{◌≡◌, ◌<◌, ◌++◌, length, map, true, IfOk};
ghost use Rattle.arm_value.specs.Look.{fold};
ghost use Rattle.deploy_cells.specs.Cells.{parameter, variable};
ghost use Rattle.plan_cells.specs.Children.{parameter_names, variable_names};
ghost use Rattle.plan_table.specs.Found.{scope_at};
ghost use Rattle.plan_sight.specs.Ready.{IsReady};
ghost use Rattle.scope_entries.specs.Entries.{cells_at, AreOwnLines, AreLinesOf};

use arm_value::OutOfMemory;
use plan_table::table::Table;
use std::alloc::Global;
use template_parts::{Parameter, Variable};

// Adds the lines of these parameters, which are those of a scope.
fn push_parameters(
    alloc: Global,
    table: &Table,
    frame: usize,
    parameters: &[Parameter],
    lines: &mut Vec<usize>,
) -> Result<(), OutOfMemory>
    requires ready { IsReady table.now }
    requires there { frame < length table.now.frames.items }
    requires own { (scope_at table.now frame).is_own ≡ true }
    requires parameters { map (λ p. fold p.name) parameters.now
        ≡ parameter_names (scope_at table.now frame).template }
    requires lines { AreOwnLines table.now frame lines.old.items }
    ensures own { IfOk result (λ _. AreOwnLines table.now frame lines.new.items) }
    ensures cells { IfOk result (λ _. cells_at table.now lines.new.items ≡ cells_at table.now lines.old.items
        ++ map (parameter (scope_at table.now frame).position)
        (parameter_names (scope_at table.now frame).template)) }
{
    for given in parameters {
        match table.parameter_line(alloc, frame, &given.name) {
            Ok(Some(at)) => lines.push(at)?,
            Ok(None) => unreachable!(),
            Err(refused) => return Err(refused),
        }
    }
    Ok(())
}

// Adds the lines of these variables, which are those of a scope.
fn push_variables(
    alloc: Global,
    table: &Table,
    frame: usize,
    variables: &[Variable],
    lines: &mut Vec<usize>,
) -> Result<(), OutOfMemory>
    requires ready { IsReady table.now }
    requires there { frame < length table.now.frames.items }
    requires own { (scope_at table.now frame).is_own ≡ true }
    requires variables { map (λ v. fold v.name) variables.now ≡ variable_names (scope_at table.now frame).template }
    requires lines { AreOwnLines table.now frame lines.old.items }
    ensures own { IfOk result (λ _. AreOwnLines table.now frame lines.new.items) }
    ensures cells { IfOk result (λ _. cells_at table.now lines.new.items ≡ cells_at table.now lines.old.items
        ++ map (variable (scope_at table.now frame).position)
        (variable_names (scope_at table.now frame).template)) }
{
    for given in variables {
        match table.variable_line(alloc, frame, &given.name) {
            Ok(Some(at)) => lines.push(at)?,
            Ok(None) => unreachable!(),
            Err(refused) => return Err(refused),
        }
    }
    Ok(())
}

/// The lines of the parameters and variables that a scope has of its own, in the order of the template.
pub fn lines_of(alloc: Global, table: &Table, frame: usize) -> Result<Vec<usize>, OutOfMemory>
    requires ready { IsReady table.now }
    requires there { frame < length table.now.frames.items }
    ensures { IfOk result (λ v. AreLinesOf table.now frame v.items) }
{
    let mut lines = Vec::new(alloc);
    if table.frames[frame].own {
        let parameters = table.frames[frame].template.parameters.as_slice();
        push_parameters(alloc, table, frame, parameters, &mut lines)?;
        let variables = table.frames[frame].template.variables.as_slice();
        push_variables(alloc, table, frame, variables, &mut lines)?;
    }
    Ok(lines)
}
