// Why there is no plan, where two instances have one key.
ghost use Rattle.std.specs.Prelude.{◌≡◌, ◌<◌, List, length, IfOk, IfErr};
ghost use Rattle.arm_ids.specs.Held.{HeldResource};
ghost use Rattle.template_parts.specs.declared.mode.Mode.{Mode};
ghost use Rattle.deploy_cells.specs.Cells.{Step, Position};
ghost use Rattle.deploy_cells.specs.Puts.{ResourcesDiffer, DeploymentsDiffer};
ghost use Rattle.plan_cells.specs.Desired.{kinds};
ghost use Rattle.plan_cells.specs.Start.{start_world};
ghost use Rattle.plan_openers.specs.Openers.{IsOpener};
ghost use Rattle.plan_openers.specs.SameNested.{AreSameNested};
ghost use Rattle.plan_puts.specs.PutTags.{AreSamePut};
ghost use Rattle.plan_refusals.specs.Keys.{ShareKey, ShareNestedKey};
ghost use Rattle.plan_table.specs.Whole.{whole_of};
ghost use Rattle.plan_tasks.specs.Start.{start_of, IsStartTable, IsInstance};
ghost use Rattle.plan_faults.specs.Faults.{IsFault};
ghost use Rattle.plan_faults.specs.declared.fault.PlanFault.TheVariants.{SameKey};
ghost use Rattle.key_faults.specs.Positions.{position_text};

use arm_value::{OutOfMemory, Text};
use plan_faults::PlanFault;
use plan_openers::{Opener, find_same_nested, opener_of};
use plan_positions::instance_position;
use plan_puts::find_same_put;
use plan_refusals::laws::keys_differ;
use plan_table::frame::Instance;
use plan_table::table::Table;
use std::alloc::Global;

// The position of an instance.
fn position_of(alloc: Global, table: &Table, opener: Opener) -> Result<Text, OutOfMemory>
    requires table { IsStartTable table.now }
    requires instance { IsInstance table.now opener.frame opener.resource opener.copy }
    ensures { IfOk result (λ x. x ≡ position_text table.now opener) }
{
    let instance = Instance {
        resource: opener.resource,
        copy: opener.copy,
    };
    instance_position(alloc, table, opener.frame, instance)
}

// The fault that two instances have one key.
fn same_fault(
    alloc: Global,
    table: &Table,
    first: Opener,
    second: Opener,
) -> Result<PlanFault, OutOfMemory>
    requires table { IsStartTable table.now }
    requires first { IsInstance table.now first.frame first.resource first.copy }
    requires second { IsInstance table.now second.frame second.resource second.copy }
    ensures { IfOk result (λ f. f ≡ SameKey (position_text table.now first) (position_text table.now second)) }
{
    let first = position_of(alloc, table, first)?;
    let second = position_of(alloc, table, second)?;
    Ok(PlanFault::SameKey(first, second))
}

// The fault that the instances that opened two scopes have one key.
fn nested_fault(
    alloc: Global,
    table: &Table,
    first: usize,
    second: usize,
) -> Result<PlanFault, OutOfMemory>
    requires table { IsStartTable table.now }
    requires first { first < length table.now.frames.items }
    requires second { second < length table.now.frames.items }
    requires same { AreSameNested table.now first second }
    ensures { IfOk result (λ f. (mode : Mode) (held : List HeldResource) → IsFault (whole_of table.now) mode held f) }
{
    match opener_of(table, first) {
        Some(first) => match opener_of(table, second) {
            Some(second) => same_fault(alloc, table, first, second),
            None => unreachable!(),
        },
        None => unreachable!(),
    }
}

// Whether no two instances that are put have one key.
fn check_puts(alloc: Global, table: &Table) -> Result<(), PlanFault>
    requires table { IsStartTable table.now }
    ensures differ { IfOk result (λ _. (p : Position) (s : Step) (q : Position) (u : Step)
        → ShareKey (whole_of table.now) (start_world (start_of table.now)) p s q u → ⊥) }
    ensures fault { IfErr result (λ f. (mode : Mode) (held : List HeldResource)
        → IsFault (whole_of table.now) mode held f) }
{
    match find_same_put(alloc, table)? {
        Some((first, second)) => Err(same_fault(alloc, table, first, second)?),
        None => Ok(()),
    }
}

// Whether no two nested deployments of one scope have one key.
fn check_nested(alloc: Global, table: &Table) -> Result<(), PlanFault>
    requires table { IsStartTable table.now }
    ensures differ { IfOk result (λ _. (p : Position) (s u : Step)
        → ShareNestedKey (whole_of table.now) (start_world (start_of table.now)) p s u → ⊥) }
    ensures fault { IfErr result (λ f. (mode : Mode) (held : List HeldResource)
        → IsFault (whole_of table.now) mode held f) }
{
    match find_same_nested(alloc, table)? {
        Some((first, second)) => Err(nested_fault(alloc, table, first, second)?),
        None => Ok(()),
    }
}

/// Nothing only where the instances that are put differ in their keys, and the nested deployments of each scope in
/// theirs; else why there is no plan, as the positions of two that have one key.
pub fn check_keys(alloc: Global, table: &Table) -> Result<(), PlanFault>
    requires table { IsStartTable table.now }
    ensures resources_differ { IfOk result (λ _. ResourcesDiffer (whole_of table.now).place
        (kinds (whole_of table.now)) (start_world (start_of table.now))) }
    ensures deployments_differ { IfOk result (λ _. DeploymentsDiffer (whole_of table.now).place
        (kinds (whole_of table.now)) (start_world (start_of table.now))) }
    ensures fault { IfErr result (λ f. (mode : Mode) (held : List HeldResource)
        → IsFault (whole_of table.now) mode held f) }
{
    keys_differ();
    check_puts(alloc, table)?;
    check_nested(alloc, table)
}
