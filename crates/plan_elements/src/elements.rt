// The values of the elements of `dependsOn`.
ghost use Rattle.std.specs.Prelude.{◌≡◌, ◌<◌, map, length, slice_get, IfOk, IfErr, Err, Some};
ghost use Rattle.arm_value.specs.View.{json};
ghost use Rattle.reading.specs.World.{Each};
ghost use Rattle.deploy_cells.specs.Cells.{step};
ghost use Rattle.plan_cells.specs.Needs.{started};
ghost use Rattle.plan_cells.specs.Tasks.{enter};
ghost use Rattle.plan_cells.specs.Resources as cells;
ghost use Rattle.plan_codes.specs.TaskCodes.{AreRead, AreDepending};
ghost use Rattle.plan_needs.specs.Lists.{values_in};
ghost use Rattle.plan_needs.specs.Needs.{AreElements};
ghost use Rattle.plan_table.specs.Lines.{IsNumber};
ghost use Rattle.plan_table.specs.Whole.{whole_of, scopes_of};
ghost use Rattle.plan_table.specs.Found.{scope_at};
ghost use Rattle.plan_tasks.specs.Start.{start_of, IsStartTable, IsInstance, IsTaskOf, task_of};
ghost use Rattle.plan_sight.specs.Ready.{told_in};
ghost use Rattle.plan_sight.specs.Seen.{Yields};
ghost use Rattle.plan_values.specs.Symbols.{IsComplete};
ghost use Rattle.plan_elements.specs.Elements.{element_at, AreElementsOf, IsUnread};
ghost use Rattle.plan_elements.specs.declared.elements.Unread.TheVariants.{OutOfMemory, Element};

use arm_value::Value;
use plan_openers::{Opener, opener_of};
use plan_sight::lack::Lack;
use plan_table::frame::Instance;
use plan_tasks::ScopeTask;
use plan_values::declared::listed_at;
use plan_values::register::Register;
use plan_values::scopes::{texts_at, told_in_instance};
use plan_values::source::Source;
use std::alloc::{AllocError, AllocFailed, Global};

/// Why elements have no values.
#[derive(Drop)]
pub enum Unread {
    /// The element of this instance at this place of its list lacks this.
    Element(Opener, usize, Lack),
    /// Out of memory.
    OutOfMemory,
}

impl From<AllocError> for Unread {
    ghost from_gives = { λ _ e. e ≡ OutOfMemory };

    fn from(_refused: AllocError) -> Unread {
        Unread::OutOfMemory
    }
}

impl<T: Drop> From<AllocFailed<T>> for Unread {
    ghost from_gives = { λ _ e. e ≡ OutOfMemory };

    fn from(_refused: AllocFailed<T>) -> Unread {
        Unread::OutOfMemory
    }
}

// Stops at an element; the values so far are dropped.
fn stopped_at<T: Drop, R: Drop>(
    opener: Opener,
    number: usize,
    lack: Lack,
    _values: T,
) -> Result<R, Unread>
    ensures { result ≡ Err (Element opener number lack) }
{
    Err(Unread::Element(opener, number, lack))
}

// Fails; the values so far are dropped.
fn failed<T: Drop, R: Drop>(fault: Unread, _values: T) -> Result<R, Unread>
    ensures { result ≡ Err fault }
{
    Err(fault)
}

// What is told of an element of an instance.
fn element_told(
    alloc: Global,
    register: &Register,
    opener: Opener,
    tree: &Value,
) -> Result<Value, Lack>
    requires complete { IsComplete register.now }
    requires table { IsStartTable register.now.table }
    requires instance { IsInstance register.now.table opener.frame opener.resource opener.copy }
    ensures { Yields json register.now.table result
        (told_in register.now.table (element_at register.now.table opener (json tree.now))) }
{
    let texts = texts_at(register, opener.frame);
    let instance = Instance {
        resource: opener.resource,
        copy: opener.copy,
    };
    told_in_instance(
        alloc,
        register,
        opener.frame,
        instance,
        texts,
        &Source::Tree(tree),
    )
}

// The elements of a resource, as they are written.
fn trees_of<'t>(register: &'t Register, frame: usize, resource: usize) -> &'t [Value]
    requires there { frame < length register.now.table.frames.items }
    requires number { IsNumber (scope_at register.now.table frame) resource }
    ensures { (x : cells.Listed) → slice_get (scope_at register.now.table frame).resources resource ≡ Some x
        → x.declaration.depends_on ≡ map json result.now }
{
    listed_at(register, frame, resource)
        .declaration
        .depends_on
        .as_slice()
}

// The values of these elements of an instance.
fn elements_read(
    alloc: Global,
    register: &Register,
    opener: Opener,
    trees: &[Value],
) -> Result<Vec<Value>, Unread>
    requires complete { IsComplete register.now }
    requires table { IsStartTable register.now.table }
    requires instance { IsInstance register.now.table opener.frame opener.resource opener.copy }
    requires trees { AreElementsOf register.now.table opener (map json trees.now) }
    ensures read { IfOk result (λ vs. AreRead (whole_of register.now.table) (start_of register.now.table)
        (scope_at register.now.table opener.frame).position (step opener.resource opener.copy)
        (map json trees.now) (map json vs.items)) }
    ensures unread { IfErr result (IsUnread register.now.table) }
{
    let mut values = Vec::new(alloc);
    'elements: for number in 0..trees.len() {
        match element_told(alloc, register, opener, &trees[number]) {
            Ok(value) => values.push(value)?,
            Err(lack) => return stopped_at(opener, number, lack, values),
        }
    }
    Ok(values)
}

// The values of the elements of an instance.
fn elements_of(alloc: Global, register: &Register, opener: Opener) -> Result<Vec<Value>, Unread>
    requires complete { IsComplete register.now }
    requires table { IsStartTable register.now.table }
    requires instance { IsInstance register.now.table opener.frame opener.resource opener.copy }
    ensures read { IfOk result (λ vs. AreDepending (whole_of register.now.table) (start_of register.now.table)
        (Some ((scope_at register.now.table opener.frame).position, step opener.resource opener.copy))
        (map json vs.items)) }
    ensures unread { IfErr result (IsUnread register.now.table) }
{
    let trees = trees_of(register, opener.frame, opener.resource);
    elements_read(alloc, register, opener, trees)
}

// The values of the elements of the instance that entering a scope starts; none where the scope is the root.
fn elements_inside(alloc: Global, register: &Register, scope: usize) -> Result<Vec<Value>, Unread>
    requires complete { IsComplete register.now }
    requires table { IsStartTable register.now.table }
    requires there { scope < length register.now.table.frames.items }
    ensures read { IfOk result (λ vs. AreDepending (whole_of register.now.table) (start_of register.now.table)
        (started (enter (scope_at register.now.table scope).position)) (map json vs.items)) }
    ensures unread { IfErr result (IsUnread register.now.table) }
{
    match opener_of(&register.table, scope) {
        Some(opener) => elements_of(alloc, register, opener),
        None => Ok(Vec::new(alloc)),
    }
}

// The values of the elements of the instance that a task starts; none where it starts none.
fn elements_of_task(
    alloc: Global,
    register: &Register,
    task: ScopeTask,
) -> Result<Vec<Value>, Unread>
    requires complete { IsComplete register.now }
    requires table { IsStartTable register.now.table }
    requires task { IsTaskOf register.now.table task }
    ensures read { IfOk result (λ vs. AreDepending (whole_of register.now.table) (start_of register.now.table)
        (started (task_of (scopes_of register.now.table) task)) (map json vs.items)) }
    ensures unread { IfErr result (IsUnread register.now.table) }
{
    match task {
        ScopeTask::Enter(scope) => elements_inside(alloc, register, scope),
        ScopeTask::Put(frame, resource, copy) => {
            let opener = Opener {
                frame,
                resource,
                copy,
            };
            elements_of(alloc, register, opener)
        }
        ScopeTask::Leave(_) => Ok(Vec::new(alloc)),
    }
}

/// For each task the values of the elements of `dependsOn` of what it starts.
pub fn elements_of_tasks(
    alloc: Global,
    register: &Register,
    tasks: &[ScopeTask],
) -> Result<Vec<Vec<Value>>, Unread>
    requires complete { IsComplete register.now }
    requires table { IsStartTable register.now.table }
    requires tasks { Each (IsTaskOf register.now.table) tasks.now }
    ensures read { IfOk result (λ vss. AreElements register.now.table tasks.now (values_in vss.items)) }
    ensures unread { IfErr result (IsUnread register.now.table) }
{
    let mut all = Vec::new(alloc);
    'tasks: for task in tasks {
        match elements_of_task(alloc, register, *task) {
            Ok(values) => all.push(values)?,
            Err(fault) => return failed(fault, all),
        }
    }
    Ok(all)
}
