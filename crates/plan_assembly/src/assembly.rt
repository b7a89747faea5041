// The parts of a plan, from a sheet that was filled.
ghost use Rattle.std.specs.Prelude.{◌≡◌, ◌+◌, [], List, map, length, IfOk, IfErr, Err};
ghost use Rattle.arm_ids.specs.Held.{HeldResource};
ghost use Rattle.reading.specs.World.{Each};
ghost use Rattle.reading.specs.Knowledge.{told, value};
ghost use Rattle.plan_cells.specs.Tasks.{put_keys, template_tasks};
ghost use Rattle.plan_table.specs.Whole.{whole_of, scopes_of};
ghost use Rattle.plan_tasks.specs.Start.{start_of, IsStartTable, IsTaskOf, task_of};
ghost use Rattle.plan_elements.specs.Lists.{values_in};
ghost use Rattle.plan_cells.specs.Plan.{AreNeeds};
ghost use Rattle.plan_elements.specs.Needs.{all_tasks, AreElements, AreInOrder, AreWithin};
ghost use Rattle.plan_telling.specs.Symbols.{IsComplete};
ghost use Rattle.plan_start.specs.Sheets.{IsSheet};
ghost use Rattle.plan_elements.specs.Elements.{IsUnread};
ghost use Rattle.plan_assembly.specs.Plans.{task_in, IsTaskIn, ArePlanned, IsPlanned, deployment_of};

use crate::listing::list_all;
use crate::plan::{Plan, Task};
use arm_ids::{Held, Key};
use arm_value::{OutOfMemory, Value};
use plan_deletes::list_deletes;
use plan_elements::{Unread, elements_of_tasks, needs_of_tasks};
use plan_start::sheet::Start;
use plan_table::table::Table;
use plan_tasks::{ScopeTask, list_keys, list_tasks};
use plan_telling::register::Register;
use std::alloc::Global;
use template_parts::{Mode, run_out};

// The keys at which tasks put.
fn keys_of(alloc: Global, table: &Table, tasks: &[ScopeTask]) -> Result<Vec<Key>, OutOfMemory>
    requires table { IsStartTable table.now }
    requires tasks { Each (IsTaskOf table.now) tasks.now }
    ensures { IfOk result (λ ks. told (start_of table.now)
        (put_keys (whole_of table.now) (map (task_of (scopes_of table.now)) tasks.now)) ≡ value ks.items) }
{
    match list_keys(alloc, table, tasks)? {
        Some(keys) => Ok(keys),
        None => unreachable!(),
    }
}

// The tasks and the needs of a plan, where these are the keys of puts and of deletes.
fn tasks_with(
    alloc: Global,
    table: &Table,
    tasks: &[ScopeTask],
    values: &[Vec<Value>],
    deletes: &[Key],
) -> Result<(Vec<Task>, Vec<(usize, usize)>), OutOfMemory>
    requires table { IsStartTable table.now }
    requires tasks { Each (IsTaskOf table.now) tasks.now }
    requires values { AreElements table.now tasks.now (values_in values.now) }
    ensures tasks { IfOk result (λ p. map (task_in (scopes_of table.now)) p.0.items
        ≡ all_tasks table.now tasks.now deletes.now) }
    ensures of_table { IfOk result (λ p. Each (IsTaskIn table.now) p.0.items) }
    ensures needs { IfOk result (λ p. AreNeeds (whole_of table.now) (start_of table.now)
        (all_tasks table.now tasks.now deletes.now) p.1.items) }
    ensures order { IfOk result (λ p. AreInOrder p.1.items) }
    ensures within { IfOk result (λ p. AreWithin (length tasks.now + length deletes.now) p.1.items) }
{
    let all = list_all(alloc, tasks, deletes)?;
    match needs_of_tasks(alloc, table, tasks, values, deletes) {
        Ok(needs) => Ok((all, needs)),
        Err(_) => run_out(all),
    }
}

/// The tasks of a plan, its needs, and the keys of its puts.
#[derive(Drop)]
pub struct Parts {
    /// The tasks.
    pub tasks: Vec<Task>,
    /// The pairs of a task and of one that it needs.
    pub needs: Vec<(usize, usize)>,
    /// The keys of the puts.
    pub keys: Vec<Key>,
}

// The parts of a plan with these keys of puts.
fn parts_with(
    alloc: Global,
    table: &Table,
    mode: Mode,
    held: &Held,
    tasks: &[ScopeTask],
    values: &[Vec<Value>],
    keys: Vec<Key>,
) -> Result<Parts, OutOfMemory>
    requires table { IsStartTable table.now }
    requires tasks { Each (IsTaskOf table.now) tasks.now }
    requires listed { told (start_of table.now) (template_tasks [] (whole_of table.now).template)
        ≡ value (map (task_of (scopes_of table.now)) tasks.now) }
    requires values { AreElements table.now tasks.now (values_in values.now) }
    requires keys { told (start_of table.now)
        (put_keys (whole_of table.now) (map (task_of (scopes_of table.now)) tasks.now)) ≡ value keys.items }
    ensures { IfOk result (λ p. ArePlanned table.now mode held.now p.tasks.items p.keys.items p.needs.items) }
{
    match list_deletes(alloc, mode, table.place, keys.as_slice(), held) {
        Ok(deletes) => match tasks_with(alloc, table, tasks, values, deletes.as_slice()) {
            Ok((tasks, needs)) => Ok(Parts { tasks, needs, keys }),
            Err(_) => run_out((keys, deletes)),
        },
        Err(_) => run_out(keys),
    }
}

// The parts of a plan with these tasks of scopes and the values of the elements of what they start.
fn parts_of(
    alloc: Global,
    table: &Table,
    mode: Mode,
    held: &Held,
    tasks: &[ScopeTask],
    values: &[Vec<Value>],
) -> Result<Parts, OutOfMemory>
    requires table { IsStartTable table.now }
    requires tasks { Each (IsTaskOf table.now) tasks.now }
    requires listed { told (start_of table.now) (template_tasks [] (whole_of table.now).template)
        ≡ value (map (task_of (scopes_of table.now)) tasks.now) }
    requires values { AreElements table.now tasks.now (values_in values.now) }
    ensures { IfOk result (λ p. ArePlanned table.now mode held.now p.tasks.items p.keys.items p.needs.items) }
{
    let keys = keys_of(alloc, table, tasks)?;
    parts_with(alloc, table, mode, held, tasks, values, keys)
}

// Fails; the part is dropped.
fn failed<T: Drop, R: Drop>(fault: Unread, _part: T) -> Result<R, Unread>
    ensures { result ≡ Err fault }
{
    Err(fault)
}

// The parts of a plan with these tasks of scopes.
fn parts_by(
    alloc: Global,
    register: &Register,
    mode: Mode,
    held: &Held,
    tasks: &[ScopeTask],
) -> Result<Parts, Unread>
    requires complete { IsComplete register.now }
    requires table { IsStartTable register.now.table }
    requires tasks { Each (IsTaskOf register.now.table) tasks.now }
    requires listed { told (start_of register.now.table) (template_tasks [] (whole_of register.now.table).template)
        ≡ value (map (task_of (scopes_of register.now.table)) tasks.now) }
    ensures planned { IfOk result (λ p. ArePlanned register.now.table mode held.now p.tasks.items p.keys.items
        p.needs.items) }
    ensures unread { IfErr result (IsUnread register.now.table) }
{
    let values = elements_of_tasks(alloc, register, tasks)?;
    match parts_of(alloc, &register.table, mode, held, tasks, values.as_slice()) {
        Ok(parts) => Ok(parts),
        Err(_) => failed(Unread::OutOfMemory, values),
    }
}

/// The parts of the plan of a deployment, by the table of its start: filled, and with values for all counts, conditions
/// and names. Where an element of `dependsOn` has no value at the start, it is returned with what it lacks.
pub fn make_parts(
    alloc: Global,
    register: &Register,
    mode: Mode,
    held: &Held,
) -> Result<Parts, Unread>
    requires complete { IsComplete register.now }
    requires table { IsStartTable register.now.table }
    ensures planned { IfOk result (λ p. ArePlanned register.now.table mode held.now p.tasks.items p.keys.items
        p.needs.items) }
    ensures unread { IfErr result (IsUnread register.now.table) }
{
    let tasks = list_tasks(alloc, &register.table)?;
    match parts_by(alloc, register, mode, held, tasks.as_slice()) {
        Ok(parts) => Ok(parts),
        Err(fault) => failed(fault, tasks),
    }
}

/// The plan of a sheet that has these parts.
pub fn assemble<'a>(start: Start<'a>, mode: Mode, parts: Parts) -> Plan<'a>
    requires sheet { IsSheet start.register }
    requires table { IsStartTable start.register.table }
    ensures planned { (held : List HeldResource) → ArePlanned start.entry.register.table mode held parts.tasks.items
        parts.keys.items parts.needs.items → IsPlanned result held }
    ensures whole { deployment_of result ≡ whole_of start.entry.register.table }
    ensures table { result.start.register.table ≡ start.entry.register.table }
    ensures tasks { result.tasks.items ≡ parts.tasks.items }
    ensures mode { result.mode ≡ mode }
{
    Plan {
        tasks: parts.tasks,
        needs: parts.needs,
        keys: parts.keys,
        template: start.register.table.template,
        bound: start.register.table.bound,
        place: start.register.table.place,
        mode,
        start,
    }
}
