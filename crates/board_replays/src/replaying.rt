// Recorded answers are played on a board on which nothing has happened.

ghost use Rattle.std.specs.Prelude.{◌≡◌, ◌≢◌, ℕ, IfErr, IfOk, List, None, OnOk, [], map};
ghost use Rattle.deploy_histories.specs.Answers as recorded;
ghost use Rattle.deploy_histories.specs.Events.{crash, progress};
ghost use Rattle.board_history.specs.Past.{with_event};
ghost use Rattle.board_dealing.specs.Kept.{IsKept};
ghost use Rattle.board_dealing.specs.Passes.{GoesOn};
ghost use Rattle.board_replays.specs.Plays.{AreAllPlayed, AreOpen};
ghost use Rattle.board_replays.specs.Replays.{noted_of, IsReopened, IsReplayed, IsBoardFault, IsOut};

use crate::answering::{answer_all, restart};
use crate::noted::{BoardFault, Noted};
use crate::playing::play;
use arm_value::OutOfMemory;
use board_dealing::run_out;
use board_history::History;
use provider_trait::Answer;
use std::alloc::Global;
use task_agenda::Agenda;
use task_standings::Standings;

// Plays the answers up to the first with which they do not follow. Returns its place.
fn play_all<S: Standings>(
    alloc: Global,
    standings: &mut S,
    history: &mut History,
    agenda: &mut Agenda,
    seen: &mut usize,
    late: &mut Vec<(u32, Answer)>,
    answers: Vec<Noted>,
) -> Result<Option<usize>, OutOfMemory>
    requires sound { S.sound standings.old }
    requires kept { IsKept (S.planned standings.old) (S.known standings.old) history.old.count history.old.events
        agenda.old seen.old }
    requires nothing { history.old.events ≡ [] }
    requires none { late.old.items ≡ [] }
    ensures sound { S.sound standings.new }
    ensures planned { S.planned standings.new ≡ S.planned standings.old }
    ensures unrefused { (progress history.new.events).refusal ≡ None }
    ensures kept { IsKept (S.planned standings.old) (S.known standings.new) history.new.count history.new.events
        agenda.new seen.new }
    ensures played { IfOk result (AreAllPlayed (S.planned standings.old) (map noted_of answers.items)
        late.new.items history.new.events) }
{
    let mut place = 0;
    for noted in answers {
        if !play(alloc, standings, history, agenda, seen, late, noted)? {
            return Ok(Some(place));
        }
        place += 1;
    }
    Ok(None)
}

// Drops late answers.
fn drop_late(_late: Vec<(u32, Answer)>) {}

// The late answers come, where all were played.
fn finish<S: Standings>(
    standings: &S,
    history: &mut History,
    agenda: &mut Agenda,
    late: Vec<(u32, Answer)>,
    bad: Option<usize>,
) -> Option<usize>
    requires kept { (seen : ℕ) × IsKept (S.planned standings.now) (S.known standings.now) history.old.count
        history.old.events agenda.old seen }
    requires may { bad ≡ None → AreOpen (S.planned standings.now) (progress history.old.events) late.items }
    ensures kept { GoesOn (S.planned standings.now) (S.known standings.now) (S.known standings.now)
        history.old history.new agenda.old agenda.new }
    ensures replayed { (ns : List recorded.Noted) → AreAllPlayed (S.planned standings.now) ns late.items
        history.old.events bad → IsReplayed (S.planned standings.now) ns history.new.events result }
{
    match bad {
        Some(place) => {
            drop_late(late);
            Some(place)
        }
        None => {
            answer_all(standings, history, agenda, late);
            None
        }
    }
}

/// Plays the answers on a board on which nothing has happened. Returns how many of them follow, where they do not all.
pub fn replay<S: Standings>(
    alloc: Global,
    standings: &mut S,
    history: &mut History,
    agenda: &mut Agenda,
    seen: &mut usize,
    answers: Vec<Noted>,
) -> Result<Option<usize>, OutOfMemory>
    requires sound { S.sound standings.old }
    requires kept { IsKept (S.planned standings.old) (S.known standings.old) history.old.count history.old.events
        agenda.old seen.old }
    requires nothing { history.old.events ≡ [] }
    ensures sound { S.sound standings.new }
    ensures planned { S.planned standings.new ≡ S.planned standings.old }
    ensures kept { IsKept (S.planned standings.old) (S.known standings.new) history.new.count history.new.events
        agenda.new seen.new }
    ensures replayed { IfOk result (IsReplayed (S.planned standings.old) (map noted_of answers.items)
        history.new.events) }
{
    let mut late = Vec::new(alloc);
    match play_all(alloc, standings, history, agenda, seen, &mut late, answers) {
        Ok(bad) => Ok(finish(standings, history, agenda, late, bad)),
        Err(_) => run_out(late),
    }
}

// A crash after what was played.
fn close<S: Standings>(
    standings: &S,
    history: &mut History,
    agenda: &mut Agenda,
    seen: &mut usize,
) -> Result<(), BoardFault>
    requires { IsKept (S.planned standings.now) (S.known standings.now) history.old.count history.old.events
        agenda.old seen.old }
    ensures kept { OnOk result (IsKept (S.planned standings.now) (S.known standings.now) history.new.count
        history.new.events agenda.new seen.new) }
    ensures history { OnOk result (history.new ≡ with_event history.old crash) }
    ensures out { IfErr result IsOut }
{
    match restart(standings, history, agenda, seen) {
        Ok(()) => Ok(()),
        Err(_) => Err(BoardFault::OutOfMemory),
    }
}

// A crash after what was played; or where not all answers follow, how many do.
fn judge<S: Standings>(
    bad: Option<usize>,
    standings: &S,
    history: &mut History,
    agenda: &mut Agenda,
    seen: &mut usize,
) -> Result<(), BoardFault>
    requires { IsKept (S.planned standings.now) (S.known standings.now) history.old.count history.old.events
        agenda.old seen.old }
    ensures kept { OnOk result (IsKept (S.planned standings.now) (S.known standings.now) history.new.count
        history.new.events agenda.new seen.new) }
    ensures reopened { (ns : List recorded.Noted) → ns ≢ [] → IsReplayed (S.planned standings.now) ns
        history.old.events bad → OnOk result (IsReopened (S.planned standings.now) ns history.new.events) }
    ensures fault { (ns : List recorded.Noted) → IsReplayed (S.planned standings.now) ns history.old.events bad
        → IfErr result (IsBoardFault (S.planned standings.now) ns) }
{
    match bad {
        Some(place) => Err(BoardFault::BadAnswer(place)),
        None => close(standings, history, agenda, seen),
    }
}

// Plays the answers, of which there are some, and then a crash.
fn go_on<S: Standings>(
    alloc: Global,
    standings: &mut S,
    history: &mut History,
    agenda: &mut Agenda,
    seen: &mut usize,
    answers: Vec<Noted>,
) -> Result<(), BoardFault>
    requires sound { S.sound standings.old }
    requires kept { IsKept (S.planned standings.old) (S.known standings.old) history.old.count history.old.events
        agenda.old seen.old }
    requires nothing { history.old.events ≡ [] }
    requires some { answers.items ≢ [] }
    ensures sound { S.sound standings.new }
    ensures planned { S.planned standings.new ≡ S.planned standings.old }
    ensures kept { OnOk result (IsKept (S.planned standings.old) (S.known standings.new) history.new.count
        history.new.events agenda.new seen.new) }
    ensures reopened { OnOk result (IsReopened (S.planned standings.old) (map noted_of answers.items)
        history.new.events) }
    ensures fault { IfErr result (IsBoardFault (S.planned standings.old) (map noted_of answers.items)) }
{
    match replay(alloc, standings, history, agenda, seen, answers) {
        Ok(bad) => judge(bad, standings, history, agenda, seen),
        Err(_) => Err(BoardFault::OutOfMemory),
    }
}

/// Plays the answers on a board on which nothing has happened, and then a crash. Without answers nothing happens.
pub fn reopen<S: Standings>(
    alloc: Global,
    standings: &mut S,
    history: &mut History,
    agenda: &mut Agenda,
    seen: &mut usize,
    answers: Vec<Noted>,
) -> Result<(), BoardFault>
    requires sound { S.sound standings.old }
    requires kept { IsKept (S.planned standings.old) (S.known standings.old) history.old.count history.old.events
        agenda.old seen.old }
    requires nothing { history.old.events ≡ [] }
    ensures sound { S.sound standings.new }
    ensures planned { S.planned standings.new ≡ S.planned standings.old }
    ensures kept { OnOk result (IsKept (S.planned standings.old) (S.known standings.new) history.new.count
        history.new.events agenda.new seen.new) }
    ensures reopened { OnOk result (IsReopened (S.planned standings.old) (map noted_of answers.items)
        history.new.events) }
    ensures fault { IfErr result (IsBoardFault (S.planned standings.old) (map noted_of answers.items)) }
{
    if answers.is_empty() {
        Ok(())
    } else {
        go_on(alloc, standings, history, agenda, seen, answers)
    }
}
