// Why there is no plan, where an element of `dependsOn` names nothing, or instances with two keys.
ghost use Rattle.std.specs.Prelude.{◌≡◌, ◌<◌, ℕ, List, Some, true, length, map, IfOk, IfErr};
ghost use Rattle.arm_value.specs.View.{json};
ghost use Rattle.arm_ids.specs.Held.{HeldResource};
ghost use Rattle.template_parts.specs.declared.mode.Mode.{Mode};
ghost use Rattle.deploy_cells.specs.Cells.{step};
ghost use Rattle.tag_holders.specs.Holders.{classes_in};
ghost use Rattle.plan_cells.specs.Needs.{started};
ghost use Rattle.plan_codes.specs.TaskCodes.{IsDepending};
ghost use Rattle.plan_table.specs.Lines.{line_at};
ghost use Rattle.plan_table.specs.Whole.{whole_of, scopes_of};
ghost use Rattle.plan_table.specs.Found.{scope_at};
ghost use Rattle.plan_tasks.specs.InOrder.{is_in};
ghost use Rattle.plan_tasks.specs.Start.{start_of, task_of, IsStartTable, IsInstance, IsTaskOf};
ghost use Rattle.plan_telling.specs.Symbols.{IsComplete};
ghost use Rattle.plan_faults.specs.Dependencies.{IsUnknown, IsAmbiguous};
ghost use Rattle.plan_faults.specs.Faults.{IsFault};
ghost use Rattle.dependency_faults.specs.Names.{AreNames};
ghost use Rattle.dependency_faults.specs.Met.{AreMet, IsLineMet};

use crate::element::{Names, check_value};
use crate::fault::unread_fault;
use crate::names::{classes_of_lines, names_of_lines};
use arm_env::stop::let_go;
use arm_value::Value;
use dependency_titles::titles_of_scopes;
use lack_faults::elements_of_tasks;
use plan_faults::PlanFault;
use plan_openers::Opener;
use plan_table::line::Spot;
use plan_table::table::Table;
use plan_tasks::ScopeTask;
use plan_tasks::instance::{Found, find_instance};
use plan_telling::register::Register;
use std::alloc::Global;
use tag_holders::holders_of;

// Whether the elements of an instance, which have these values, name something, and no two keys.
fn check_values(
    alloc: Global,
    table: &Table,
    names: &Names,
    opener: Opener,
    values: &[Value],
) -> Result<(), PlanFault>
    requires table { IsStartTable table.now }
    requires names { AreNames table.now names.now.holders.now (classes_in names.now.classes.now)
        names.now.titles.now }
    requires instance { IsInstance table.now opener.frame opener.resource opener.copy }
    requires included { is_in (start_of table.now) (scope_at table.now opener.frame).position
        (step opener.resource opener.copy) ≡ true }
    requires depending { IsDepending (whole_of table.now) (start_of table.now)
        ((scope_at table.now opener.frame).position, step opener.resource opener.copy) (map json values.now) }
    ensures met { IfOk result (λ _. AreMet table.now (scope_at table.now opener.frame).position
        (step opener.resource opener.copy)) }
    ensures fault { IfErr result (λ f. (mode : Mode) (held : List HeldResource)
        → IsFault (whole_of table.now) mode held f) }
{
    'elements: for number in 0..values.len() {
        check_value(alloc, table, names, opener, number, &values[number])?;
    }
    Ok(())
}

// The same of the elements of the instance that a task starts.
fn check_started(
    alloc: Global,
    register: &Register,
    names: &Names,
    opener: Opener,
    task: ScopeTask,
) -> Result<(), PlanFault>
    requires complete { IsComplete register.now }
    requires table { IsStartTable register.now.table }
    requires names { AreNames register.now.table names.now.holders.now (classes_in names.now.classes.now)
        names.now.titles.now }
    requires instance { IsInstance register.now.table opener.frame opener.resource opener.copy }
    requires included { is_in (start_of register.now.table) (scope_at register.now.table opener.frame).position
        (step opener.resource opener.copy) ≡ true }
    requires task { IsTaskOf register.now.table task }
    requires started { started (task_of (scopes_of register.now.table) task)
        ≡ Some ((scope_at register.now.table opener.frame).position, step opener.resource opener.copy) }
    ensures met { IfOk result (λ _. AreMet register.now.table (scope_at register.now.table opener.frame).position
        (step opener.resource opener.copy)) }
    ensures fault { IfErr result (λ f. (mode : Mode) (held : List HeldResource)
        → IsFault (whole_of register.now.table) mode held f) }
{
    let tasks = [task];
    match elements_of_tasks(alloc, register, &tasks) {
        Ok(values) => match values.as_slice().first() {
            Some(own) => {
                let checked = check_values(alloc, &register.table, names, opener, own.as_slice());
                let_go(values);
                checked
            }
            None => unreachable!(),
        },
        Err(unread) => Err(unread_fault(alloc, &register.table, unread)),
    }
}

// The same of an instance, where it is included.
fn check_instance(
    alloc: Global,
    register: &Register,
    names: &Names,
    opener: Opener,
) -> Result<(), PlanFault>
    requires complete { IsComplete register.now }
    requires table { IsStartTable register.now.table }
    requires names { AreNames register.now.table names.now.holders.now (classes_in names.now.classes.now)
        names.now.titles.now }
    requires instance { IsInstance register.now.table opener.frame opener.resource opener.copy }
    ensures met { IfOk result (λ _. AreMet register.now.table (scope_at register.now.table opener.frame).position
        (step opener.resource opener.copy)) }
    ensures fault { IfErr result (λ f. (mode : Mode) (held : List HeldResource)
        → IsFault (whole_of register.now.table) mode held f) }
{
    let Opener {
        frame,
        resource,
        copy,
    } = opener;
    match find_instance(alloc, &register.table, frame, resource, copy)? {
        Found::LeftAway => Ok(()),
        Found::Resource => {
            let task = ScopeTask::Put(frame, resource, copy);
            check_started(alloc, register, names, opener, task)
        }
        Found::Scope(scope) => {
            check_started(alloc, register, names, opener, ScopeTask::Enter(scope))
        }
    }
}

// The same of the instance of a line; a line that is no condition of one is passed over.
fn check_line(alloc: Global, register: &Register, names: &Names, at: usize) -> Result<(), PlanFault>
    requires complete { IsComplete register.now }
    requires table { IsStartTable register.now.table }
    requires names { AreNames register.now.table names.now.holders.now (classes_in names.now.classes.now)
        names.now.titles.now }
    requires listed { at < length register.now.table.lines.items }
    ensures met { IfOk result (λ _. IsLineMet register.now.table (line_at register.now.table.lines.items at).spot) }
    ensures fault { IfErr result (λ f. (mode : Mode) (held : List HeldResource)
        → IsFault (whole_of register.now.table) mode held f) }
{
    match register.table.lines[at].spot {
        Spot::Included(frame, resource, copy) => {
            let opener = Opener {
                frame,
                resource,
                copy,
            };
            check_instance(alloc, register, names, opener)
        }
        Spot::Parameter(_, _) => Ok(()),
        Spot::Variable(_, _) => Ok(()),
        Spot::Offered(_, _) => Ok(()),
        Spot::Output(_, _) => Ok(()),
        Spot::Count(_, _) => Ok(()),
        Spot::Name(_, _, _) => Ok(()),
        Spot::Deployments(_) => Ok(()),
    }
}

// The same of all instances.
fn check_lines(alloc: Global, register: &Register, names: &Names) -> Result<(), PlanFault>
    requires complete { IsComplete register.now }
    requires table { IsStartTable register.now.table }
    requires names { AreNames register.now.table names.now.holders.now (classes_in names.now.classes.now)
        names.now.titles.now }
    ensures known { IfOk result (λ _. (path : List ℕ)
        → IsUnknown (whole_of register.now.table) (start_of register.now.table) path → ⊥) }
    ensures one { IfOk result (λ _. (path : List ℕ)
        → IsAmbiguous (whole_of register.now.table) (start_of register.now.table) path → ⊥) }
    ensures fault { IfErr result (λ f. (mode : Mode) (held : List HeldResource)
        → IsFault (whole_of register.now.table) mode held f) }
{
    'lines: for at in 0..register.table.lines.len() {
        check_line(alloc, register, names, at)?;
    }
    Ok(())
}

/// Nothing exactly where each element of `dependsOn` of an included instance is a title, or names instances, all of one
/// key; else why there is no plan, with the path of an element that names nothing, or two keys.
pub fn check_dependencies(alloc: Global, register: &Register) -> Result<(), PlanFault>
    requires complete { IsComplete register.now }
    requires table { IsStartTable register.now.table }
    ensures known { IfOk result (λ _. (path : List ℕ)
        → IsUnknown (whole_of register.now.table) (start_of register.now.table) path → ⊥) }
    ensures one { IfOk result (λ _. (path : List ℕ)
        → IsAmbiguous (whole_of register.now.table) (start_of register.now.table) path → ⊥) }
    ensures fault { IfErr result (λ f. (mode : Mode) (held : List HeldResource)
        → IsFault (whole_of register.now.table) mode held f) }
{
    let tags = names_of_lines(alloc, &register.table)?;
    let classes = classes_of_lines(alloc, &register.table)?;
    let titles = titles_of_scopes(alloc, register.table.frames.as_slice())?;
    let holders = holders_of(alloc, tags.as_slice(), classes.as_slice())?;
    let names = Names {
        holders: &holders,
        classes: classes.as_slice(),
        titles: titles.as_slice(),
    };
    check_lines(alloc, register, &names)
}
