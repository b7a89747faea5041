// Scopes are entered and left.

ghost use Rattle.std.specs.Prelude.{◌≡◌, ◌<◌, ◌++◌, ◌∷◌, [], ℕ, None, IfOk, OnErr, OnOk, length, true};
ghost use Rattle.arm_value.specs.Json.{null};
ghost use Rattle.deploy_histories.specs.Events as event;
ghost use Rattle.deploy_histories.specs.Events.{progress, is_waiting};
ghost use Rattle.task_standings.specs.Seen.{IsSeen};
ghost use Rattle.reading.specs.Knowledge.{Grows};
ghost use Rattle.task_standings.specs.Standings.{IsScopeSeen};
ghost use Rattle.task_agenda.specs.Agendas.{count, is_scope};
ghost use Rattle.board_dealing.specs.Boards.{HasPassed, HasPassedOne};
ghost use Rattle.board_dealing.specs.Kept.{IsKept};
ghost use Rattle.board_dealing.specs.Looks.{IsReady, IsReadyFirst, IsPrepared, NoScopeListed};
ghost use Rattle.board_dealing.specs.Passes.{IsNotedAs, GoesOn, IsSettledOnce, Fewer};

use crate::looking::ready_scope;
use crate::waking::catch_up;
use arm_value::OutOfMemory;
use board_history::History;
use std::alloc::Global;
use task_agenda::Agenda;
use task_standings::{Kind, Standings, seen_stays};

// The scope of this task is entered.
fn enter(history: &mut History, agenda: &mut Agenda, task: u32) -> Result<(), OutOfMemory>
    requires within { task < history.old.count }
    requires waits { (progress history.old.events).status task ≡ is_waiting }
    requires known { task < count agenda.old }
    ensures { IsNotedAs history.old history.new agenda.old agenda.new task (event.enter task) result }
{
    history.enter(task)?;
    agenda.done(task);
    Ok(())
}

// The scope of this task is left, and its outputs are known.
fn leave<S: Standings>(
    standings: &mut S,
    history: &mut History,
    agenda: &mut Agenda,
    task: u32,
) -> Result<(), OutOfMemory>
    requires within { task < history.old.count }
    requires waits { (progress history.old.events).status task ≡ is_waiting }
    requires known { task < count agenda.old }
    requires sound { S.sound standings.old }
    requires noted { S.noted standings.old task }
    requires seen { IsSeen (S.planned standings.old) (progress (history.old.events ++ event.leave task ∷ []))
        (S.known standings.old) }
    ensures history { IsNotedAs history.old history.new agenda.old agenda.new task (event.leave task) result }
    ensures sound { S.sound standings.new }
    ensures planned { S.planned standings.new ≡ S.planned standings.old }
    ensures seen { OnOk result (IsSeen (S.planned standings.old) (progress history.new.events)
        (S.known standings.new)) }
    ensures grows { OnOk result (Grows (S.known standings.old) (S.known standings.new)) }
    ensures left { OnOk result (IsScopeSeen (S.planned standings.old) (S.known standings.new) task) }
    ensures known { OnErr result (S.known standings.new ≡ S.known standings.old) }
{
    history.leave(task)?;
    agenda.done(task);
    standings.left(history, task);
    Ok(())
}

// The scope of this task is entered or left.
fn pass<S: Standings>(
    standings: &mut S,
    history: &mut History,
    agenda: &mut Agenda,
    task: u32,
) -> Result<(), OutOfMemory>
    requires sound { S.sound standings.old }
    requires kept { (seen : ℕ) × IsKept (S.planned standings.old) (S.known standings.old) history.old.count
        history.old.events agenda.old seen }
    requires of_scope { is_scope agenda.old task ≡ true }
    requires ready { IsReady (S.planned standings.old) (progress history.old.events) task null }
    requires prepared { IsPrepared (S.planned standings.old) (S.known standings.old) (S.noted standings.old) task }
    ensures sound { S.sound standings.new }
    ensures planned { S.planned standings.new ≡ S.planned standings.old }
    ensures kept { GoesOn (S.planned standings.old) (S.known standings.old) (S.known standings.new)
        history.old history.new agenda.old agenda.new }
    ensures passed { HasPassedOne (S.planned standings.old) task history.old.events history.new.events result }
    ensures refusal { (progress history.new.events).refusal ≡ (progress history.old.events).refusal }
    ensures fewer { OnOk result (Fewer (S.planned standings.old) history.old.events history.new.events) }
{
    seen_stays();
    match standings.kind(task) {
        Kind::Enter => enter(history, agenda, task),
        Kind::Leave => leave(standings, history, agenda, task),
        Kind::Put => unreachable!(),
        Kind::Delete => unreachable!(),
    }
}

// The scope of this task is entered or left, and what waits for that is looked at again.
fn pass_and_hear<S: Standings>(
    standings: &mut S,
    history: &mut History,
    agenda: &mut Agenda,
    seen: &mut usize,
    task: u32,
) -> Result<(), OutOfMemory>
    requires sound { S.sound standings.old }
    requires kept { IsKept (S.planned standings.old) (S.known standings.old) history.old.count history.old.events
        agenda.old seen.old }
    requires caught { seen.old ≡ length history.old.events }
    requires first { IsReadyFirst (S.planned standings.old) (progress history.old.events) (S.known standings.old)
        (S.noted standings.old) agenda.old task }
    ensures sound { S.sound standings.new }
    ensures planned { S.planned standings.new ≡ S.planned standings.old }
    ensures kept { IsKept (S.planned standings.old) (S.known standings.new) history.new.count history.new.events
        agenda.new seen.new }
    ensures refusal { (progress history.new.events).refusal ≡ (progress history.old.events).refusal }
    ensures passed { HasPassed (S.planned standings.old) history.old.events history.new.events }
    ensures caught { OnOk result (seen.new ≡ length history.new.events) }
    ensures fewer { OnOk result (Fewer (S.planned standings.old) history.old.events history.new.events) }
{
    pass(standings, history, agenda, task)?;
    catch_up(standings, history, agenda, seen)
}

// The first scope that may be is entered or left. Returns whether there was one.
fn settle_one<S: Standings>(
    alloc: Global,
    standings: &mut S,
    history: &mut History,
    agenda: &mut Agenda,
    seen: &mut usize,
) -> Result<bool, OutOfMemory>
    requires sound { S.sound standings.old }
    requires unrefused { (progress history.old.events).refusal ≡ None }
    requires kept { IsKept (S.planned standings.old) (S.known standings.old) history.old.count history.old.events
        agenda.old seen.old }
    requires caught { seen.old ≡ length history.old.events }
    ensures sound { S.sound standings.new }
    ensures planned { S.planned standings.new ≡ S.planned standings.old }
    ensures kept { IsKept (S.planned standings.old) (S.known standings.new) history.new.count history.new.events
        agenda.new seen.new }
    ensures refusal { (progress history.new.events).refusal ≡ (progress history.old.events).refusal }
    ensures passed { HasPassed (S.planned standings.old) history.old.events history.new.events }
    ensures settled { IfOk result (IsSettledOnce (S.planned standings.old) history.old.events history.new.events
        agenda.new seen.old seen.new) }
{
    match ready_scope(alloc, standings, history, agenda)? {
        Some(task) => {
            pass_and_hear(standings, history, agenda, seen, task)?;
            Ok(true)
        }
        None => Ok(false),
    }
}

/// Enters and leaves scopes, each time the first that may be, until none may be. After `OutOfMemory` some may have
/// been.
pub fn settle<S: Standings>(
    alloc: Global,
    standings: &mut S,
    history: &mut History,
    agenda: &mut Agenda,
    seen: &mut usize,
) -> Result<(), OutOfMemory>
    requires sound { S.sound standings.old }
    requires unrefused { (progress history.old.events).refusal ≡ None }
    requires kept { IsKept (S.planned standings.old) (S.known standings.old) history.old.count history.old.events
        agenda.old seen.old }
    ensures sound { S.sound standings.new }
    ensures planned { S.planned standings.new ≡ S.planned standings.old }
    ensures kept { IsKept (S.planned standings.old) (S.known standings.new) history.new.count history.new.events
        agenda.new seen.new }
    ensures unrefused { (progress history.new.events).refusal ≡ None }
    ensures passed { HasPassed (S.planned standings.old) history.old.events history.new.events }
    ensures caught { OnOk result (seen.new ≡ length history.new.events) }
    ensures none { OnOk result (NoScopeListed agenda.new) }
{
    catch_up(standings, history, agenda, seen)?;
    'scopes: while settle_one(alloc, standings, history, agenda, seen)? {}
    Ok(())
}
