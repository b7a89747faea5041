// The agenda of a plan of which nothing has happened.

ghost use Rattle.std.specs.Prelude.{◌≡◌, ◌<◌, ◌^◌, ◌++◌, ◌∷◌, IfOk, OnOk, [], length, map};
ghost use Rattle.plan_cells.specs.Plan.{Need};
ghost use Rattle.task_agenda.specs.Agendas.{count as count_of};
ghost use Rattle.board_dealing.specs.Kept.{enters_or_leaves, kind_of_scope};
ghost use Rattle.deploy_core.specs.Opens.{HasNeeds, IsNeedAdded, IsFilled, IsFirst};

use arm_value::OutOfMemory;
use board_dealing::run_out;
use board_history::History;
use std::alloc::Global;
use task_agenda::Agenda;
use task_standings::{Kind, Standings};

// Whether a task of the kind enters or leaves a scope.
fn is_of_scope(kind: Kind) -> bool
    ensures { result ≡ kind_of_scope kind }
{
    match kind {
        Kind::Enter => true,
        Kind::Put => false,
        Kind::Delete => false,
        Kind::Leave => true,
    }
}

// Of each task, whether it enters or leaves a scope.
fn kinds<S: Standings>(alloc: Global, standings: &S) -> Result<Vec<bool>, OutOfMemory>
    requires { S.sound standings.now }
    ensures kinds { IfOk result (λ v. v.items ≡ map enters_or_leaves (S.planned standings.now).tasks) }
    ensures few { IfOk result (λ v. length v.items < 2 ^ 32) }
{
    let mut kinds = Vec::new(alloc);
    for task in 0..standings.count() {
        kinds.push(is_of_scope(standings.kind(task)))?;
    }
    Ok(kinds)
}

// Notes a need of one task for another. A pair of other numbers is left out.
fn add_need(
    alloc: Global,
    agenda: &mut Agenda,
    count: usize,
    need: (usize, usize),
) -> Result<(), OutOfMemory>
    requires { count ≡ count_of agenda.old }
    ensures { OnOk result (IsNeedAdded agenda.old agenda.new need) }
{
    let (task, other) = need;
    if task >= count {
        return Ok(());
    }
    if other >= count {
        return Ok(());
    }
    agenda.need(alloc, task as u32, other as u32)
}

// Notes these needs.
fn add_needs(
    alloc: Global,
    agenda: &mut Agenda,
    count: usize,
    needs: &[(usize, usize)],
) -> Result<(), OutOfMemory>
    requires count { count ≡ count_of agenda.old }
    requires none { HasNeeds agenda.old agenda.old.kinds.items [] }
    ensures { OnOk result (HasNeeds agenda.new agenda.old.kinds.items needs.now) }
{
    for need in needs {
        add_need(alloc, agenda, count, *need)?;
    }
    Ok(())
}

// Adds these needs, and lists the tasks that need nothing.
fn fill(
    alloc: Global,
    agenda: &mut Agenda,
    count: usize,
    needs: &[(usize, usize)],
) -> Result<(), OutOfMemory>
    requires count { count ≡ count_of agenda.old }
    requires none { HasNeeds agenda.old agenda.old.kinds.items [] }
    ensures { OnOk result (IsFilled agenda.old.kinds.items needs.now agenda.new) }
{
    add_needs(alloc, agenda, count, needs)?;
    agenda.wake_all()
}

// The same agenda with these needs.
fn filled(
    alloc: Global,
    agenda: Agenda,
    count: usize,
    needs: &[(usize, usize)],
) -> Result<Agenda, OutOfMemory>
    requires count { count ≡ count_of agenda }
    requires none { HasNeeds agenda agenda.kinds.items [] }
    ensures { IfOk result (IsFilled agenda.kinds.items needs.now) }
{
    let mut agenda = agenda;
    match fill(alloc, &mut agenda, count, needs) {
        Ok(()) => Ok(agenda),
        Err(_) => run_out(agenda),
    }
}

/// The agenda of the tasks with these needs. A task that needs nothing is listed.
pub(crate) fn first_agenda<S: Standings>(
    alloc: Global,
    standings: &S,
    needs: &[(usize, usize)],
) -> Result<Agenda, OutOfMemory>
    requires { S.sound standings.now }
    ensures { IfOk result (IsFilled (map enters_or_leaves (S.planned standings.now).tasks) needs.now) }
{
    let kinds = kinds(alloc, standings)?;
    let count = kinds.len();
    let agenda = Agenda::new(alloc, kinds)?;
    filled(alloc, agenda, count, needs)
}

/// The history and the agenda of a plan of which nothing has happened.
#[derive(Drop)]
pub(crate) struct Parts {
    pub history: History,
    pub agenda: Agenda,
}

/// The history and the agenda of the tasks with these needs.
pub(crate) fn first_parts<S: Standings>(
    alloc: Global,
    standings: &S,
    needs: &[(usize, usize)],
) -> Result<Parts, OutOfMemory>
    requires { S.sound standings.now }
    ensures { IfOk result (IsFirst (S.planned standings.now) needs.now) }
{
    let history = History::new(alloc, standings.count())?;
    match first_agenda(alloc, standings, needs) {
        Ok(agenda) => Ok(Parts { history, agenda }),
        Err(_) => run_out(history),
    }
}
