// Looking at listed tasks, until one is ready.

ghost use Rattle.std.specs.Prelude.{◌≡◌, ◌<◌, ℕ, IfOk, None, true, false, length};
ghost use Rattle.deploy_histories.specs.Events.{progress, is_waiting as is_waiting_status};
ghost use Rattle.task_agenda.specs.Agendas.{count};
ghost use Rattle.board_dealing.specs.Kept.{IsKept};
ghost use Rattle.board_dealing.specs.Looks.{IsFree, IsPutOff, IsLooked, IsReadyScope, IsReadyAct, StaysKept};

use arm_value::{OutOfMemory, Value};
use board_history::History;
use std::alloc::Global;
use task_agenda::Agenda;
use task_standings::{Standing, Standings};

// Drops a body.
fn let_go(_body: Value) {}

// Whether the task waits: it is not done, and no Begin of it is open.
fn is_waiting(history: &History, task: u32) -> bool
    ensures waits { result ≡ true → (progress history.now.events).status task ≡ is_waiting_status }
    ensures over { result ≡ false → (progress history.now.events).status task ≡ is_waiting_status → ⊥ }
{
    if history.is_done(task) {
        return false;
    }
    !history.is_begun(task)
}

/// Whether the task waits, and all that it is known to need is done.
pub fn is_free(history: &History, agenda: &Agenda, task: u32) -> bool
    requires { task < count agenda.now }
    ensures { IsFree (progress history.now.events) agenda.now task result }
{
    if is_waiting(history, task) {
        agenda.is_ready(task)
    } else {
        false
    }
}

// The task waits for another: it is taken off the list.
fn put_off(
    alloc: Global,
    agenda: &mut Agenda,
    task: u32,
    other: u32,
) -> Result<Option<Value>, OutOfMemory>
    requires task { task < count agenda.old }
    requires other { other < count agenda.old }
    ensures { IsPutOff agenda.old agenda.new task other result }
{
    agenda.need(alloc, task, other)?;
    agenda.take_off(task);
    Ok(None)
}

// Looks at a listed task: its body, where it is ready. Else it is listed no more.
fn look<S: Standings>(
    alloc: Global,
    standings: &mut S,
    history: &History,
    agenda: &mut Agenda,
    task: u32,
) -> Result<Option<Value>, OutOfMemory>
    requires sound { S.sound standings.old }
    requires within { task < length (S.planned standings.old).tasks }
    requires unrefused { (progress history.now.events).refusal ≡ None }
    requires kept { (seen : ℕ) × IsKept (S.planned standings.old) (S.known standings.old) history.now.count
        history.now.events agenda.old seen }
    ensures sound { S.sound standings.new }
    ensures planned { S.planned standings.new ≡ S.planned standings.old }
    ensures kept { StaysKept (S.planned standings.old) (S.known standings.old) (S.known standings.new)
        history.now.count history.now.events agenda.old agenda.new }
    ensures looked { IfOk result (IsLooked (S.planned standings.old) (progress history.now.events)
        (S.known standings.new) (S.noted standings.new) agenda.old agenda.new task) }
{
    if !is_free(history, agenda, task) {
        agenda.take_off(task);
        return Ok(None);
    }
    match standings.standing(alloc, history, task)? {
        Standing::Ready(body) => Ok(Some(body)),
        Standing::Waits(other) => put_off(alloc, agenda, task, other),
        Standing::Stuck => {
            agenda.take_off(task);
            Ok(None)
        }
    }
}

/// The first scope that may be entered or left, and none where no task of scopes is listed any more.
pub fn ready_scope<S: Standings>(
    alloc: Global,
    standings: &mut S,
    history: &History,
    agenda: &mut Agenda,
) -> Result<Option<u32>, OutOfMemory>
    requires sound { S.sound standings.old }
    requires unrefused { (progress history.now.events).refusal ≡ None }
    requires kept { (seen : ℕ) × IsKept (S.planned standings.old) (S.known standings.old) history.now.count
        history.now.events agenda.old seen }
    ensures sound { S.sound standings.new }
    ensures planned { S.planned standings.new ≡ S.planned standings.old }
    ensures kept { StaysKept (S.planned standings.old) (S.known standings.old) (S.known standings.new)
        history.now.count history.now.events agenda.old agenda.new }
    ensures ready { IfOk result (IsReadyScope (S.planned standings.old) (progress history.now.events)
        (S.known standings.new) (S.noted standings.new) agenda.new) }
{
    'scopes: while let Some(task) = agenda.first_scope() {
        if let Some(body) = look(alloc, standings, history, agenda, task)? {
            let_go(body);
            return Ok(Some(task));
        }
    }
    Ok(None)
}

/// The first task that may be put or deleted, with its body, and none where no such task is listed any more.
pub fn ready_act<S: Standings>(
    alloc: Global,
    standings: &mut S,
    history: &History,
    agenda: &mut Agenda,
) -> Result<Option<(u32, Value)>, OutOfMemory>
    requires sound { S.sound standings.old }
    requires unrefused { (progress history.now.events).refusal ≡ None }
    requires kept { (seen : ℕ) × IsKept (S.planned standings.old) (S.known standings.old) history.now.count
        history.now.events agenda.old seen }
    ensures sound { S.sound standings.new }
    ensures planned { S.planned standings.new ≡ S.planned standings.old }
    ensures kept { StaysKept (S.planned standings.old) (S.known standings.old) (S.known standings.new)
        history.now.count history.now.events agenda.old agenda.new }
    ensures ready { IfOk result (IsReadyAct (S.planned standings.old) (progress history.now.events)
        agenda.old agenda.new) }
{
    'acts: while let Some(task) = agenda.first_act() {
        if let Some(body) = look(alloc, standings, history, agenda, task)? {
            return Ok(Some((task, body)));
        }
    }
    Ok(None)
}
