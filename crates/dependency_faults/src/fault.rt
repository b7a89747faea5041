// The faults of an element of `dependsOn`.
ghost use Rattle.std.specs.Prelude.{◌≡◌, ◌<◌, List, length, IfOk};
ghost use Rattle.arm_ids.specs.Held.{HeldResource};
ghost use Rattle.template_parts.specs.declared.mode.Mode.{Mode};
ghost use Rattle.deploy_cells.specs.Cells.{step};
ghost use Rattle.plan_filling.specs.Steps.{Filled};
ghost use Rattle.plan_table.specs.Whole.{whole_of, rows_in, IsLaid};
ghost use Rattle.plan_table.specs.Found.{scope_at};
ghost use Rattle.lack_faults.specs.Elements.{IsUnread};
ghost use Rattle.plan_paths.specs.CellPaths.{element_path};
ghost use Rattle.plan_faults.specs.Faults.{IsFault};
ghost use Rattle.plan_faults.specs.declared.fault.PlanFault.TheVariants.{UnknownDependency, AmbiguousDependency};

use arm_value::{OutOfMemory, Path};
use lack_faults::{Unread, element_fault};
use plan_faults::PlanFault;
use plan_openers::Opener;
use plan_paths::element_path;
use plan_table::frame::Instance;
use plan_table::table::Table;
use std::alloc::Global;

/// Why there is no plan, where elements have no values.
pub fn unread_fault(alloc: Global, table: &Table, unread: Unread) -> PlanFault
    requires laid { IsLaid table.now }
    requires filled { Filled (whole_of table.now) (rows_in table.now) }
    requires unread { IsUnread table.now unread }
    ensures { (mode : Mode) (held : List HeldResource) → IsFault (whole_of table.now) mode held result }
{
    match unread {
        Unread::Element(opener, element, lack) => element_fault(
            alloc, table, opener, element, lack,
        ),
        Unread::OutOfMemory => PlanFault::OutOfMemory,
    }
}

// The path of an element of an instance.
fn path_of(alloc: Global, table: &Table, opener: Opener, number: usize) -> Result<Path, OutOfMemory>
    requires laid { IsLaid table.now }
    requires there { opener.frame < length table.now.frames.items }
    ensures { IfOk result (λ p. p ≡ element_path (whole_of table.now).template
        (scope_at table.now opener.frame).position (step opener.resource opener.copy) number) }
{
    let instance = Instance {
        resource: opener.resource,
        copy: opener.copy,
    };
    element_path(alloc, table, opener.frame, instance, number)
}

/// The fault that an element of an instance names nothing.
pub fn unknown_fault(
    alloc: Global,
    table: &Table,
    opener: Opener,
    number: usize,
) -> Result<PlanFault, OutOfMemory>
    requires laid { IsLaid table.now }
    requires there { opener.frame < length table.now.frames.items }
    ensures { IfOk result (λ f. f ≡ UnknownDependency (element_path (whole_of table.now).template
        (scope_at table.now opener.frame).position (step opener.resource opener.copy) number)) }
{
    let path = path_of(alloc, table, opener, number)?;
    Ok(PlanFault::UnknownDependency(path))
}

/// The fault that an element of an instance names two keys.
pub fn ambiguous_fault(
    alloc: Global,
    table: &Table,
    opener: Opener,
    number: usize,
) -> Result<PlanFault, OutOfMemory>
    requires laid { IsLaid table.now }
    requires there { opener.frame < length table.now.frames.items }
    ensures { IfOk result (λ f. f ≡ AmbiguousDependency (element_path (whole_of table.now).template
        (scope_at table.now opener.frame).position (step opener.resource opener.copy) number)) }
{
    let path = path_of(alloc, table, opener, number)?;
    Ok(PlanFault::AmbiguousDependency(path))
}
