// Why there is no plan, where a nested deployment gives something for a parameter that its template lacks.
ghost use Rattle.std.specs.Prelude.{◌≡◌, ◌<◌, ℕ, List, true, length, IfOk, IfErr};
ghost use Rattle.arm_ids.specs.Held.{HeldResource};
ghost use Rattle.template_parts.specs.declared.fault.BindFault as bind;
ghost use Rattle.template_parts.specs.declared.fault.BindFault.TheVariants.{ExtraParameter};
ghost use Rattle.template_parts.specs.declared.mode.Mode.{Mode};
ghost use Rattle.deploy_cells.specs.Cells.{step};
ghost use Rattle.plan_openers.specs.Openers.{IsOpener};
ghost use Rattle.plan_table.specs.Whole.{whole_of, IsLaid};
ghost use Rattle.plan_table.specs.Found.{scope_at};
ghost use Rattle.plan_tasks.specs.Start.{start_of, IsStartTable, IsInstance};
ghost use Rattle.plan_faults.specs.declared.fault.PlanFault.TheVariants.{Bind};
ghost use Rattle.plan_faults.specs.Faults.{IsFault, IsExtra, argument_path};
ghost use Rattle.argument_faults.specs.Extra.{IsWithoutExtra};

use crate::arguments::{argument_path, arguments_of, find_extra, parameter_names};
use arm_value::OutOfMemory;
use plan_faults::PlanFault;
use plan_openers::{Opener, opener_of};
use plan_table::table::Table;
use std::alloc::Global;
use template_parts::{Argument, BindFault};

// The fault that the nested deployment of an instance gives this.
fn extra_fault(
    alloc: Global,
    table: &Table,
    opener: Opener,
    argument: &Argument,
) -> Result<PlanFault, OutOfMemory>
    requires laid { IsLaid table.now }
    requires instance { IsInstance table.now opener.frame opener.resource opener.copy }
    ensures { IfOk result (λ f. f ≡ Bind (argument_path (whole_of table.now).template
        (scope_at table.now opener.frame).position (step opener.resource opener.copy) argument.now.name)
        (ExtraParameter argument.now.name)) }
{
    let path = argument_path(alloc, table, opener, &argument.name)?;
    let name = argument.name.copy(alloc)?;
    Ok(PlanFault::Bind(path, BindFault::ExtraParameter(name)))
}

// Whether an instance, which opened a scope with parameters of its own, gives nothing else.
fn check_opener(alloc: Global, table: &Table, frame: usize, opener: Opener) -> Result<(), PlanFault>
    requires table { IsStartTable table.now }
    requires there { frame < length table.now.frames.items }
    requires opener { IsOpener table.now frame opener }
    requires own { (scope_at table.now frame).is_own ≡ true }
    ensures none { IfOk result (λ _. IsWithoutExtra table.now frame) }
    ensures fault { IfErr result (λ f. (mode : Mode) (held : List HeldResource)
        → IsFault (whole_of table.now) mode held f) }
{
    let names = parameter_names(alloc, table.frames[frame].template)?;
    match find_extra(alloc, &names, arguments_of(table, opener))? {
        Some(argument) => Err(extra_fault(alloc, table, opener, argument)?),
        None => Ok(()),
    }
}

// Whether the nested deployment that opened a scope gives nothing else; the root, and a scope that sees the parameters
// around it, may be given anything.
fn check_scope(alloc: Global, table: &Table, frame: usize) -> Result<(), PlanFault>
    requires table { IsStartTable table.now }
    requires there { frame < length table.now.frames.items }
    ensures none { IfOk result (λ _. IsWithoutExtra table.now frame) }
    ensures fault { IfErr result (λ f. (mode : Mode) (held : List HeldResource)
        → IsFault (whole_of table.now) mode held f) }
{
    if table.frames[frame].own {
        match opener_of(table, frame) {
            Some(opener) => check_opener(alloc, table, frame, opener),
            None => Ok(()),
        }
    } else {
        Ok(())
    }
}

/// Nothing only where each nested deployment whose template has parameters of its own gives something for these
/// alone; else why there is no plan, as the path of what is given for another name.
pub fn check_arguments(alloc: Global, table: &Table) -> Result<(), PlanFault>
    requires table { IsStartTable table.now }
    ensures none { IfOk result (λ _. (path : List ℕ) (f : bind.BindFault)
        → IsExtra (whole_of table.now) (start_of table.now) path f → ⊥) }
    ensures fault { IfErr result (λ f. (mode : Mode) (held : List HeldResource)
        → IsFault (whole_of table.now) mode held f) }
{
    'frames: for frame in 0..table.frames.len() {
        check_scope(alloc, table, frame)?;
    }
    Ok(())
}
