// What a worker is to do, and what comes back.

ghost use Rattle.std.specs.Prelude.{◌≡◌, ◌≢◌, ℕ, IfOk, List, OnErr, None, true, false, length};
ghost use Rattle.arm_value.specs.View.{json};
ghost use Rattle.deploy_histories.specs.Events as event;
ghost use Rattle.deploy_histories.specs.Events.{Event, progress, IsBegun};
ghost use Rattle.deploy_histories.specs.Legal.{MayEnd};
ghost use Rattle.board_history.specs.Past.{with_event};
ghost use Rattle.board_history.specs.Stages.{refuses};
ghost use Rattle.task_agenda.specs.Agendas.{is_scope};
ghost use Rattle.board_dealing.specs.Boards.{IsNext, IsPause, IsStarted, HasPassed, HasSettled};
ghost use Rattle.board_dealing.specs.Kept.{IsKept};
ghost use Rattle.board_dealing.specs.Looks.{IsReady, NoScopeListed};
ghost use Rattle.board_dealing.specs.Passes.{GoesOn};

use crate::beginning::begin;
use crate::looking::ready_act;
use crate::passing::settle;
use arm_value::{OutOfMemory, Value};
use board_history::History;
use dealer_trait::Next;
use provider_trait::Answer;
use std::alloc::Global;
use task_agenda::Agenda;
use task_standings::{Standings, seen_stays};

/// Whether an answer has refused.
pub fn is_refused(history: &History) -> bool
    ensures refused { result ≡ true → (progress history.now.events).refusal ≢ None }
    ensures unrefused { result ≡ false → (progress history.now.events).refusal ≡ None }
{
    match history.refusal() {
        Some(_) => true,
        None => false,
    }
}

/// No job: where a Begin is open, its end is waited for.
pub fn pause(history: &History) -> Next
    ensures { IsPause (progress history.now.events) result }
{
    if history.is_idle() {
        Next::End
    } else {
        Next::Wait
    }
}

/// Begins the first task that is ready, after the scopes that may be entered or left.
pub fn deal<S: Standings>(
    alloc: Global,
    standings: &mut S,
    history: &mut History,
    agenda: &mut Agenda,
    seen: &mut usize,
    worker: u32,
) -> Result<Next, OutOfMemory>
    requires sound { S.sound standings.old }
    requires unrefused { (progress history.old.events).refusal ≡ None }
    requires kept { IsKept (S.planned standings.old) (S.known standings.old) history.old.count history.old.events
        agenda.old seen.old }
    ensures sound { S.sound standings.new }
    ensures planned { S.planned standings.new ≡ S.planned standings.old }
    ensures kept { IsKept (S.planned standings.old) (S.known standings.new) history.new.count history.new.events
        agenda.new seen.new }
    ensures next { IfOk result (λ n. IsNext (S.planned standings.old) history.old.events worker n history.new.events) }
    ensures out { OnErr result (HasPassed (S.planned standings.old) history.old.events history.new.events) }
{
    settle(alloc, standings, history, agenda, seen)?;
    begin_first(alloc, standings, history, agenda, worker)
}

// Begins the first task that is ready, where no scope may be entered or left.
fn begin_first<S: Standings>(
    alloc: Global,
    standings: &mut S,
    history: &mut History,
    agenda: &mut Agenda,
    worker: u32,
) -> Result<Next, OutOfMemory>
    requires sound { S.sound standings.old }
    requires unrefused { (progress history.old.events).refusal ≡ None }
    requires kept { IsKept (S.planned standings.old) (S.known standings.old) history.old.count history.old.events
        agenda.old (length history.old.events) }
    requires none { NoScopeListed agenda.old }
    ensures sound { S.sound standings.new }
    ensures planned { S.planned standings.new ≡ S.planned standings.old }
    ensures kept { GoesOn (S.planned standings.old) (S.known standings.old) (S.known standings.new)
        history.old history.new agenda.old agenda.new }
    ensures next { (before : List Event) → HasSettled (S.planned standings.old) before history.old.events
        → IfOk result (λ n. IsNext (S.planned standings.old) before worker n history.new.events) }
    ensures out { OnErr result (history.new.events ≡ history.old.events) }
{
    match ready_act(alloc, standings, history, agenda)? {
        Some((task, body)) => start(alloc, standings, history, agenda, task, worker, body),
        None => Ok(pause(history)),
    }
}

// Begins the task for the worker, with this body.
fn start<S: Standings>(
    alloc: Global,
    standings: &S,
    history: &mut History,
    agenda: &Agenda,
    task: u32,
    worker: u32,
    body: Value,
) -> Result<Next, OutOfMemory>
    requires sound { S.sound standings.now }
    requires kept { (seen : ℕ) × IsKept (S.planned standings.now) (S.known standings.now) history.old.count
        history.old.events agenda.now seen }
    requires ready { IsReady (S.planned standings.now) (progress history.old.events) task (json body) }
    requires act { is_scope agenda.now task ≡ false }
    ensures kept { GoesOn (S.planned standings.now) (S.known standings.now) (S.known standings.now)
        history.old history.new agenda.now agenda.now }
    ensures begun { IfOk result (λ n. IsStarted (S.planned standings.now) history.old.events task worker (json body)
        n history.new.events) }
    ensures out { OnErr result (history.new.events ≡ history.old.events) }
{
    seen_stays();
    match begin(alloc, standings, history, task, worker, body) {
        Ok(job) => Ok(Next::Begun(job)),
        Err(refused) => Err(refused),
    }
}

/// Whether the answer is a refusal.
pub fn is_refusal(answer: &Answer) -> bool
    ensures { result ≡ refuses answer.now }
{
    match answer {
        Answer::Stored(_) => false,
        Answer::Gone => false,
        Answer::Refused(_) => true,
    }
}

/// The open Begin of the task has this answer.
pub fn take<S: Standings>(
    standings: &S,
    history: &mut History,
    agenda: &mut Agenda,
    task: u32,
    answer: Answer,
)
    requires may { MayEnd (S.planned standings.now) (progress history.old.events) task answer }
    requires kept { (seen : ℕ) × IsKept (S.planned standings.now) (S.known standings.now) history.old.count
        history.old.events agenda.old seen }
    ensures kept { GoesOn (S.planned standings.now) (S.known standings.now) (S.known standings.now)
        history.old history.new agenda.old agenda.new }
    ensures history { history.new ≡ with_event history.old (event.answer task answer) }
{
    if is_refusal(&answer) {
        refuse(standings, history, agenda, task, answer);
    } else {
        finish(standings, history, agenda, task, answer);
    }
}

// The task is refused.
fn refuse<S: Standings>(
    _standings: &S,
    history: &mut History,
    _agenda: &Agenda,
    task: u32,
    answer: Answer,
)
    requires may { MayEnd (S.planned _standings.now) (progress history.old.events) task answer }
    requires refuses { refuses answer ≡ true }
    ensures kept { GoesOn (S.planned _standings.now) (S.known _standings.now) (S.known _standings.now)
        history.old history.new _agenda.now _agenda.now }
    ensures history { history.new ≡ with_event history.old (event.answer task answer) }
{
    seen_stays();
    history.answer(task, answer);
}

// The task is done.
fn finish<S: Standings>(
    _standings: &S,
    history: &mut History,
    agenda: &mut Agenda,
    task: u32,
    answer: Answer,
)
    requires may { MayEnd (S.planned _standings.now) (progress history.old.events) task answer }
    requires does { refuses answer ≡ false }
    requires kept { (seen : ℕ) × IsKept (S.planned _standings.now) (S.known _standings.now) history.old.count
        history.old.events agenda.old seen }
    ensures kept { GoesOn (S.planned _standings.now) (S.known _standings.now) (S.known _standings.now)
        history.old history.new agenda.old agenda.new }
    ensures history { history.new ≡ with_event history.old (event.answer task answer) }
{
    seen_stays();
    history.answer(task, answer);
    agenda.done(task);
}

/// The job of the open Begin of the task is given back.
pub fn give_back<S: Standings>(standings: &S, history: &mut History, agenda: &Agenda, task: u32)
    requires begun { IsBegun (progress history.old.events) task }
    ensures kept { GoesOn (S.planned standings.now) (S.known standings.now) (S.known standings.now)
        history.old history.new agenda.now agenda.now }
    ensures history { history.new ≡ with_event history.old (event.back task) }
{
    seen_stays();
    history.back(task);
}
