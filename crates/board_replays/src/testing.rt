// Whether a recorded answer may be played.

ghost use Rattle.std.specs.Prelude.{◌≡◌, ◌↔◌, ◌<◌, ℕ, IfOk, IsTrue, None, length};
ghost use Rattle.arm_value.specs.View.{json};
ghost use Rattle.deploy_histories.specs.Events.{progress};
ghost use Rattle.task_standings.specs.declared.standing.Kind.TheVariants.{Put, Delete};
ghost use Rattle.board_dealing.specs.Kept.{IsKept};
ghost use Rattle.board_dealing.specs.Looks.{StaysKept};
ghost use Rattle.board_replays.specs.Plays.{suits_kind, IsReadyAs, IsPlayable};
ghost use Rattle.board_replays.specs.Replays.{noted_of};

use crate::noted::Noted;
use arm_value::{OutOfMemory, Value};
use board_dealing::looking::is_free;
use board_history::History;
use provider_trait::Answer;
use std::alloc::Global;
use task_agenda::Agenda;
use task_standings::{Kind, Standing, Standings};

// Whether the answer is one to a put.
fn suits_put(answer: &Answer) -> bool
    ensures { result ≡ suits_kind Put answer.now }
{
    match answer {
        Answer::Stored(_) => true,
        Answer::Gone => false,
        Answer::Refused(_) => true,
    }
}

// Whether the answer is one to a deletion.
fn suits_deletion(answer: &Answer) -> bool
    ensures { result ≡ suits_kind Delete answer.now }
{
    match answer {
        Answer::Stored(_) => false,
        Answer::Gone => true,
        Answer::Refused(_) => true,
    }
}

// Whether the answer suits a task of the kind.
fn suits(kind: Kind, answer: &Answer) -> bool
    ensures { result ≡ suits_kind kind answer.now }
{
    match kind {
        Kind::Enter => false,
        Kind::Put => suits_put(answer),
        Kind::Delete => suits_deletion(answer),
        Kind::Leave => false,
    }
}

// Whether the body that was found is this one.
fn is_found(found: Value, body: &Value) -> bool
    ensures { IsTrue result ↔ (json found ≡ json body.now) }
{
    found.same(body)
}

// Whether the task is ready with this body.
fn is_ready_with<S: Standings>(
    alloc: Global,
    standings: &mut S,
    history: &History,
    agenda: &Agenda,
    task: u32,
    body: &Value,
) -> Result<bool, OutOfMemory>
    requires sound { S.sound standings.old }
    requires within { task < length (S.planned standings.old).tasks }
    requires unrefused { (progress history.now.events).refusal ≡ None }
    requires kept { (seen : ℕ) × IsKept (S.planned standings.old) (S.known standings.old) history.now.count
        history.now.events agenda.now seen }
    ensures sound { S.sound standings.new }
    ensures planned { S.planned standings.new ≡ S.planned standings.old }
    ensures kept { StaysKept (S.planned standings.old) (S.known standings.old) (S.known standings.new)
        history.now.count history.now.events agenda.now agenda.now }
    ensures ready { IfOk result
        (IsReadyAs (S.planned standings.old) (progress history.now.events) task (json body.now)) }
{
    if !is_free(history, agenda, task) {
        return Ok(false);
    }
    match standings.standing(alloc, history, task)? {
        Standing::Ready(found) => Ok(is_found(found, body)),
        Standing::Waits(_other) => Ok(false),
        Standing::Stuck => Ok(false),
    }
}

/// Whether the task of the answer is ready with the body, and the answer suits it.
pub(crate) fn may_play<S: Standings>(
    alloc: Global,
    standings: &mut S,
    history: &History,
    agenda: &Agenda,
    noted: &Noted,
) -> Result<bool, OutOfMemory>
    requires sound { S.sound standings.old }
    requires unrefused { (progress history.now.events).refusal ≡ None }
    requires kept { (seen : ℕ) × IsKept (S.planned standings.old) (S.known standings.old) history.now.count
        history.now.events agenda.now seen }
    ensures sound { S.sound standings.new }
    ensures planned { S.planned standings.new ≡ S.planned standings.old }
    ensures kept { StaysKept (S.planned standings.old) (S.known standings.old) (S.known standings.new)
        history.now.count history.now.events agenda.now agenda.now }
    ensures may { IfOk result
        (IsPlayable (S.planned standings.old) (progress history.now.events) (noted_of noted.now)) }
{
    let count = standings.count();
    let task = noted.task;
    if task >= count {
        return Ok(false);
    }
    if !suits(standings.kind(task), &noted.answer) {
        return Ok(false);
    }
    is_ready_with(alloc, standings, history, agenda, task, &noted.body)
}
