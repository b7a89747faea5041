// The paths of scopes and of instances.
ghost use Rattle.std.specs.Prelude.{◌≡◌, ◌<◌, length, IfOk};
ghost use Rattle.plan_table.specs.Opened.{step_of};
ghost use Rattle.plan_table.specs.Whole.{whole_of, IsLaid};
ghost use Rattle.plan_table.specs.Found.{scope_at};
ghost use Rattle.plan_paths.specs.Texts.{a_path, inside, scope_text, instance_text};

use crate::resources::{below, resource_path};
use arm_value::{OutOfMemory, Path};
use plan_table::frame::Instance;
use plan_table::table::Table;
use std::alloc::Global;

// The path of the template of the nested deployment at a path.
fn inside(alloc: Global, path: &Path) -> Result<Path, OutOfMemory>
    ensures { IfOk result (λ p. p ≡ inside path.now) }
{
    let properties = below(alloc, path, "properties")?;
    below(alloc, &properties, "template")
}

/// The path of the template of a scope; that of the root is empty.
#[cycle(scopes)]
pub fn scope_path(alloc: Global, table: &Table, frame: usize) -> Result<Path, OutOfMemory>
    requires laid { IsLaid table.now }
    requires there { frame < length table.now.frames.items }
    ensures { IfOk result (λ p. p
        ≡ scope_text a_path (whole_of table.now).template (scope_at table.now frame).position) }
{
    let frame = &table.frames[frame];
    match frame.position.as_slice().first() {
        Some(instance) => {
            let path = instance_path(alloc, table, frame.around, *instance)?;
            inside(alloc, &path)
        }
        None => Ok(Path::root(alloc)),
    }
}

/// The path of the resource of an instance of a scope.
#[cycle(scopes)]
pub fn instance_path(
    alloc: Global,
    table: &Table,
    frame: usize,
    instance: Instance,
) -> Result<Path, OutOfMemory>
    requires laid { IsLaid table.now }
    requires there { frame < length table.now.frames.items }
    ensures { IfOk result (λ p. p ≡ instance_text a_path (whole_of table.now).template
        (scope_at table.now frame).position (step_of instance)) }
{
    let scope = scope_path(alloc, table, frame)?;
    let resource = resource_path(alloc, table.frames[frame].template, instance.resource)?;
    scope.join(alloc, &resource)
}
