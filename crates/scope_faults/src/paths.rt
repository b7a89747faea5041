// The path of an output.
ghost use Rattle.std.specs.Prelude.{◌≡◌, ◌<◌, length, nat_lt, true, IfOk};
ghost use Rattle.std.specs.List.{list_all};
ghost use Rattle.deploy_cells.specs.Cells.{output};
ghost use Rattle.plan_cells.specs.Children.{NamesDiffer};
ghost use Rattle.plan_table.specs.Whole.{whole_of, IsLaid};
ghost use Rattle.plan_table.specs.Found.{scope_at};
ghost use Rattle.plan_paths.specs.CellPaths.{cell_path, named_path};
ghost use Rattle.plan_paths.specs.Texts.{a_path, inside, scope_text};
ghost use Rattle.scope_outputs.specs.Outputs.{names_of, position_of};
ghost use Rattle.scope_faults.specs.Faults.{output_at};

use arm_value::{OutOfMemory, Path, Text};
use plan_paths::{below, instance_path};
use plan_table::table::Table;
use std::alloc::Global;

// The path of the template of the nested deployment at a path.
fn inside(alloc: Global, path: &Path) -> Result<Path, OutOfMemory>
    ensures { IfOk result (λ p. p ≡ inside path.now) }
{
    let properties = below(alloc, path, "properties")?;
    below(alloc, &properties, "template")
}

// The path of the template of a scope; that of the root is empty.
fn scope_path(alloc: Global, table: &Table, frame: usize) -> Result<Path, OutOfMemory>
    requires laid { IsLaid table.now }
    requires there { frame < length table.now.frames.items }
    ensures { IfOk result (λ p. p
        ≡ scope_text a_path (whole_of table.now).template (scope_at table.now frame).position) }
{
    let frame = &table.frames[frame];
    match frame.position.as_slice().first() {
        Some(instance) => {
            let path = instance_path(alloc, table, frame.around, *instance)?;
            inside(alloc, &path)
        }
        None => Ok(Path::root(alloc)),
    }
}

// The path of what has a name, in this member of a scope.
fn named_path(
    alloc: Global,
    table: &Table,
    frame: usize,
    list: &str,
    name: &Text,
) -> Result<Path, OutOfMemory>
    requires laid { IsLaid table.now }
    requires there { frame < length table.now.frames.items }
    requires word { list_all (λ b. nat_lt b 128) list.now ≡ true }
    ensures { IfOk result (λ p. p ≡ named_path (whole_of table.now).template (scope_at table.now frame).position
        list.now name.now) }
{
    let scope = scope_path(alloc, table, frame)?;
    let list = below(alloc, &scope, list)?;
    list.member(alloc, name.as_str())
}

/// The path of the value of the output of a scope that has the number.
pub(crate) fn output_path(
    alloc: Global,
    table: &Table,
    frame: usize,
    number: usize,
) -> Result<Path, OutOfMemory>
    requires laid { IsLaid table.now }
    requires names_differ { NamesDiffer (whole_of table.now).template }
    requires there { frame < length table.now.frames.items }
    requires number { number < length (names_of table.now frame) }
    ensures { IfOk result (λ p. p ≡ cell_path (whole_of table.now).template
        (output (position_of table.now frame) (output_at table.now frame number))) }
{
    let outputs = table.frames[frame].template.outputs.as_slice();
    let path = named_path(alloc, table, frame, "outputs", &outputs[number].name)?;
    below(alloc, &path, "value")
}
