// A recorded answer is played.

ghost use Rattle.std.specs.Prelude.{◌≡◌, ◌++◌, ◌∷◌, ℕ, IfOk, OnOk, List, None, [], false, is_ok, true, if◌then◌else◌};
ghost use Rattle.arm_value.specs.View.{json};
ghost use Rattle.deploy_histories.specs.Answers as recorded;
ghost use Rattle.deploy_histories.specs.Events as event;
ghost use Rattle.deploy_histories.specs.Events.{Event, progress};
ghost use Rattle.deploy_histories.specs.Legal.{MayEnd};
ghost use Rattle.board_history.specs.Past.{with_event};
ghost use Rattle.task_agenda.specs.Agendas.{is_scope};
ghost use Rattle.board_dealing.specs.Boards.{HasSettled};
ghost use Rattle.board_dealing.specs.Kept.{IsKept};
ghost use Rattle.board_dealing.specs.Looks.{IsReady};
ghost use Rattle.board_dealing.specs.Passes.{GoesOn};
ghost use Rattle.board_replays.specs.Plays.{IsPlayable, IsBegunFor, IsEnded, ArePlayed, AreLate, HavePlayed};
ghost use Rattle.board_replays.specs.Plays.{IsPlayedOn};
ghost use Rattle.board_replays.specs.Replays.{noted_of};

use crate::noted::Noted;
use crate::testing::may_play;
use arm_value::{OutOfMemory, Value};
use board_dealing::dealing::{is_refusal, take};
use board_dealing::passing::settle;
use board_dealing::run_out;
use board_history::History;
use provider_trait::Answer;
use std::alloc::Global;
use task_agenda::Agenda;
use task_standings::{Standings, seen_stays};

// The task is begun with this body.
fn begin<S: Standings>(
    _standings: &S,
    history: &mut History,
    _agenda: &Agenda,
    task: u32,
    worker: u32,
    body: Value,
) -> Result<(), OutOfMemory>
    requires kept { (seen : ℕ) × IsKept (S.planned _standings.now) (S.known _standings.now) history.old.count
        history.old.events _agenda.now seen }
    requires ready { IsReady (S.planned _standings.now) (progress history.old.events) task (json body) }
    requires act { is_scope _agenda.now task ≡ false }
    ensures kept { GoesOn (S.planned _standings.now) (S.known _standings.now) (S.known _standings.now)
        history.old history.new _agenda.now _agenda.now }
    ensures history { history.new ≡ (if is_ok result
        then with_event history.old (event.begin task worker (json body)) else history.old) }
{
    seen_stays();
    history.begin(task, worker, body)
}

// The task of the answer is begun. Returns the task and the answer.
fn begin_noted<S: Standings>(
    standings: &S,
    history: &mut History,
    agenda: &Agenda,
    noted: Noted,
) -> Result<Option<(u32, Answer)>, OutOfMemory>
    requires kept { (seen : ℕ) × IsKept (S.planned standings.now) (S.known standings.now) history.old.count
        history.old.events agenda.now seen }
    requires playable { IsPlayable (S.planned standings.now) (progress history.old.events) (noted_of noted) true }
    ensures kept { GoesOn (S.planned standings.now) (S.known standings.now) (S.known standings.now)
        history.old history.new agenda.now agenda.now }
    ensures unrefused { (progress history.new.events).refusal ≡ (progress history.old.events).refusal }
    ensures begun { IfOk result
        (IsBegunFor (S.planned standings.now) history.old.events (noted_of noted) history.new.events) }
{
    let task = noted.task;
    let answer = noted.answer;
    match begin(standings, history, agenda, task, noted.worker, noted.body) {
        Ok(()) => Ok(Some((task, answer))),
        Err(_) => run_out(answer),
    }
}

// None; the answer is dropped.
fn refuse(_noted: Noted) -> Option<(u32, Answer)>
    ensures { result ≡ None }
{
    None
}

// The same where this is true; else the answer is dropped.
fn begin_if<S: Standings>(
    may: bool,
    standings: &S,
    history: &mut History,
    agenda: &Agenda,
    noted: Noted,
) -> Result<Option<(u32, Answer)>, OutOfMemory>
    requires kept { (seen : ℕ) × IsKept (S.planned standings.now) (S.known standings.now) history.old.count
        history.old.events agenda.now seen }
    requires unrefused { (progress history.old.events).refusal ≡ None }
    requires playable { IsPlayable (S.planned standings.now) (progress history.old.events) (noted_of noted) may }
    ensures kept { GoesOn (S.planned standings.now) (S.known standings.now) (S.known standings.now)
        history.old history.new agenda.now agenda.now }
    ensures unrefused { (progress history.new.events).refusal ≡ None }
    ensures begun { IfOk result
        (IsBegunFor (S.planned standings.now) history.old.events (noted_of noted) history.new.events) }
{
    if may {
        begin_noted(standings, history, agenda, noted)
    } else {
        Ok(refuse(noted))
    }
}

// The task of the answer is begun, where it is ready with the body and the answer suits it. Returns the task and the
// answer.
fn begin_for<S: Standings>(
    alloc: Global,
    standings: &mut S,
    history: &mut History,
    agenda: &Agenda,
    noted: Noted,
) -> Result<Option<(u32, Answer)>, OutOfMemory>
    requires sound { S.sound standings.old }
    requires unrefused { (progress history.old.events).refusal ≡ None }
    requires kept { (seen : ℕ) × IsKept (S.planned standings.old) (S.known standings.old) history.old.count
        history.old.events agenda.now seen }
    ensures sound { S.sound standings.new }
    ensures planned { S.planned standings.new ≡ S.planned standings.old }
    ensures kept { GoesOn (S.planned standings.old) (S.known standings.old) (S.known standings.new)
        history.old history.new agenda.now agenda.now }
    ensures unrefused { (progress history.new.events).refusal ≡ None }
    ensures begun { IfOk result
        (IsBegunFor (S.planned standings.old) history.old.events (noted_of noted) history.new.events) }
{
    match may_play(alloc, standings, history, agenda, &noted) {
        Ok(may) => begin_if(may, standings, history, agenda, noted),
        Err(_) => run_out(noted),
    }
}

// Keeps the answer of the task for later.
fn hold(late: &mut Vec<(u32, Answer)>, task: u32, answer: Answer) -> Result<(), OutOfMemory>
    ensures { OnOk result (late.new.items ≡ late.old.items ++ (task, answer) ∷ []) }
{
    late.push((task, answer))?;
    Ok(())
}

// The open Begin of the task has this answer, where it does not refuse; else it is kept for later.
fn end<S: Standings>(
    standings: &S,
    history: &mut History,
    agenda: &mut Agenda,
    late: &mut Vec<(u32, Answer)>,
    task: u32,
    answer: Answer,
) -> Result<(), OutOfMemory>
    requires may { MayEnd (S.planned standings.now) (progress history.old.events) task answer }
    requires unrefused { (progress history.old.events).refusal ≡ None }
    requires kept { (seen : ℕ) × IsKept (S.planned standings.now) (S.known standings.now) history.old.count
        history.old.events agenda.old seen }
    ensures kept { GoesOn (S.planned standings.now) (S.known standings.now) (S.known standings.now)
        history.old history.new agenda.old agenda.new }
    ensures unrefused { (progress history.new.events).refusal ≡ None }
    ensures ended { OnOk result
        (IsEnded task answer late.old.items late.new.items history.old.events history.new.events) }
{
    if is_refusal(&answer) {
        hold(late, task, answer)
    } else {
        take(standings, history, agenda, task, answer);
        Ok(())
    }
}

// Plays an answer after scopes were entered and left, where no answer is late.
fn play_early<S: Standings>(
    alloc: Global,
    standings: &mut S,
    history: &mut History,
    agenda: &mut Agenda,
    late: &mut Vec<(u32, Answer)>,
    noted: Noted,
) -> Result<bool, OutOfMemory>
    requires sound { S.sound standings.old }
    requires unrefused { (progress history.old.events).refusal ≡ None }
    requires kept { (seen : ℕ) × IsKept (S.planned standings.old) (S.known standings.old) history.old.count
        history.old.events agenda.old seen }
    requires none { late.old.items ≡ [] }
    ensures sound { S.sound standings.new }
    ensures planned { S.planned standings.new ≡ S.planned standings.old }
    ensures unrefused { (progress history.new.events).refusal ≡ None }
    ensures kept { GoesOn (S.planned standings.old) (S.known standings.old) (S.known standings.new)
        history.old history.new agenda.old agenda.new }
    ensures played { (ns : List recorded.Noted) (before : List Event) → ArePlayed (S.planned standings.old) ns before
        → HasSettled (S.planned standings.old) before history.old.events → IfOk result (IsPlayedOn
        (S.planned standings.old) ns (noted_of noted) late.new.items history.new.events) }
{
    match begin_for(alloc, standings, history, agenda, noted)? {
        Some((task, answer)) => {
            end(standings, history, agenda, late, task, answer)?;
            Ok(true)
        }
        None => Ok(false),
    }
}

// Scopes are entered and left until none may be; then plays an answer, where no answer is late.
fn settle_and_play<S: Standings>(
    alloc: Global,
    standings: &mut S,
    history: &mut History,
    agenda: &mut Agenda,
    seen: &mut usize,
    late: &mut Vec<(u32, Answer)>,
    noted: Noted,
) -> Result<bool, OutOfMemory>
    requires sound { S.sound standings.old }
    requires unrefused { (progress history.old.events).refusal ≡ None }
    requires kept { IsKept (S.planned standings.old) (S.known standings.old) history.old.count history.old.events
        agenda.old seen.old }
    requires none { late.old.items ≡ [] }
    ensures sound { S.sound standings.new }
    ensures planned { S.planned standings.new ≡ S.planned standings.old }
    ensures unrefused { (progress history.new.events).refusal ≡ None }
    ensures kept { IsKept (S.planned standings.old) (S.known standings.new) history.new.count history.new.events
        agenda.new seen.new }
    ensures played { (ns : List recorded.Noted) → ArePlayed (S.planned standings.old) ns history.old.events
        → IfOk result (IsPlayedOn (S.planned standings.old) ns (noted_of noted) late.new.items history.new.events) }
{
    match settle(alloc, standings, history, agenda, seen) {
        Ok(()) => play_early(alloc, standings, history, agenda, late, noted),
        Err(_) => run_out(noted),
    }
}

// Plays an answer where others are late: it is late too.
fn play_late<S: Standings>(
    alloc: Global,
    standings: &mut S,
    history: &mut History,
    agenda: &Agenda,
    late: &mut Vec<(u32, Answer)>,
    noted: Noted,
) -> Result<bool, OutOfMemory>
    requires sound { S.sound standings.old }
    requires unrefused { (progress history.old.events).refusal ≡ None }
    requires kept { (seen : ℕ) × IsKept (S.planned standings.old) (S.known standings.old) history.old.count
        history.old.events agenda.now seen }
    ensures sound { S.sound standings.new }
    ensures planned { S.planned standings.new ≡ S.planned standings.old }
    ensures unrefused { (progress history.new.events).refusal ≡ None }
    ensures kept { GoesOn (S.planned standings.old) (S.known standings.old) (S.known standings.new)
        history.old history.new agenda.now agenda.now }
    ensures played { (ns : List recorded.Noted) → AreLate (S.planned standings.old) ns late.old.items history.old.events
        → IfOk result (IsPlayedOn (S.planned standings.old) ns (noted_of noted) late.new.items history.new.events) }
{
    match begin_for(alloc, standings, history, agenda, noted)? {
        Some((task, answer)) => {
            hold(late, task, answer)?;
            Ok(true)
        }
        None => Ok(false),
    }
}

/// Plays one answer more. Returns whether the answers follow with it.
pub(crate) fn play<S: Standings>(
    alloc: Global,
    standings: &mut S,
    history: &mut History,
    agenda: &mut Agenda,
    seen: &mut usize,
    late: &mut Vec<(u32, Answer)>,
    noted: Noted,
) -> Result<bool, OutOfMemory>
    requires sound { S.sound standings.old }
    requires unrefused { (progress history.old.events).refusal ≡ None }
    requires kept { IsKept (S.planned standings.old) (S.known standings.old) history.old.count history.old.events
        agenda.old seen.old }
    ensures sound { S.sound standings.new }
    ensures planned { S.planned standings.new ≡ S.planned standings.old }
    ensures unrefused { (progress history.new.events).refusal ≡ None }
    ensures kept { IsKept (S.planned standings.old) (S.known standings.new) history.new.count history.new.events
        agenda.new seen.new }
    ensures played { (ns : List recorded.Noted) → HavePlayed (S.planned standings.old) ns late.old.items
        history.old.events → IfOk result (IsPlayedOn (S.planned standings.old) ns (noted_of noted) late.new.items
        history.new.events) }
{
    if late.is_empty() {
        settle_and_play(alloc, standings, history, agenda, seen, late, noted)
    } else {
        play_late(alloc, standings, history, agenda, late, noted)
    }
}
