// The outputs of the root that have a value.
ghost use Rattle.std.specs.Prelude.{◌≡◌, ◌++◌, [], List, ℕ, map, IfOk};
ghost use Rattle.arm_value.specs.Look.{fold};
ghost use Rattle.arm_value.specs.View.{json};
ghost use Rattle.reading.specs.Knowledge.{blanked, IsThere};
ghost use Rattle.deploy_cells.specs.Cells.{output};
ghost use Rattle.plan_cells.specs.Children.{Has, output_names};
ghost use Rattle.plan_cells.specs.Resources.{header_in};
ghost use Rattle.plan_table.specs.Whole.{whole_of};
ghost use Rattle.plan_sight.specs.Ready.{IsReady};
ghost use Rattle.point_rows.specs.Rows.{known_now, IsFit};
ghost use Rattle.task_standings.specs.Outputs.{value_of, with_value, with_values};

use arm_value::{OutOfMemory, Value};
use plan_table::table::Table;
use point_rows::later::{Entry, Later};
use std::alloc::Global;
use task_standings::RootOutput;
use template_parts::{Output, run_out};

// The output with its value.
fn root_output(alloc: Global, declared: &Output, value: &Value) -> Result<RootOutput, OutOfMemory>
    ensures { IfOk result (λ o. value_of o
        ≡ record { name = declared.now.name; kind = declared.now.kind; value = json value.now }) }
{
    let name = declared.name.copy(alloc)?;
    match value.copy(alloc) {
        Ok(value) => Ok(RootOutput {
            name,
            kind: declared.kind,
            value,
        }),
        Err(_) => run_out(name),
    }
}

// Adds the output, if it has a value.
fn add_output(
    alloc: Global,
    table: &Table,
    later: &Later,
    declared: &Output,
    outputs: &mut Vec<RootOutput>,
) -> Result<(), OutOfMemory>
    requires ready { IsReady table.now }
    requires fit { IsFit table.now later.now }
    requires declared { Has (fold declared.now.name) (output_names (whole_of table.now).template) }
    requires there { IsThere (known_now table.now later.now (output [] (fold declared.now.name))) }
    ensures { IfOk result (λ _. map value_of outputs.new.items ≡ map value_of outputs.old.items
        ++ with_value declared.now (blanked (known_now table.now later.now) (output [] (fold declared.now.name))) []) }
{
    match table.offered_line(alloc, 0, &declared.name) {
        Ok(Some(at)) => match &later.entries[at] {
            Entry::Value(value) => {
                outputs.push(root_output(alloc, declared, value)?)?;
                Ok(())
            }
            Entry::Away => Ok(()),
            Entry::Missing => unreachable!(),
        },
        Ok(None) => unreachable!(),
        Err(refused) => Err(refused),
    }
}

/// The outputs of the root that have a value, in the order of the template, where all are known.
pub(crate) fn root_outputs(
    alloc: Global,
    table: &Table,
    later: &Later,
) -> Result<Vec<RootOutput>, OutOfMemory>
    requires ready { IsReady table.now }
    requires fit { IsFit table.now later.now }
    requires there { (n : List ℕ) → Has n (output_names (whole_of table.now).template)
        → IsThere (known_now table.now later.now (output [] n)) }
    ensures { IfOk result (λ os. map value_of os.items ≡ with_values
        (λ n. blanked (known_now table.now later.now) (output [] n))
        (header_in (whole_of table.now).template).outputs) }
{
    let mut outputs = Vec::new(alloc);
    'each: for declared in table.template.outputs.as_slice() {
        add_output(alloc, table, later, declared, &mut outputs)?;
    }
    Ok(outputs)
}
