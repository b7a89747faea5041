// Late answers come, and what a crash leaves.

ghost use Rattle.std.specs.Prelude.{◌≡◌, ◌++◌, ℕ, OnOk, length, map};
ghost use Rattle.deploy_histories.specs.Events as event;
ghost use Rattle.deploy_histories.specs.Events.{crash, progress};
ghost use Rattle.board_history.specs.Past.{with_event};
ghost use Rattle.board_dealing.specs.Kept.{IsKept};
ghost use Rattle.board_dealing.specs.Passes.{GoesOn};
ghost use Rattle.board_replays.specs.Plays.{AreOpen};

use arm_value::OutOfMemory;
use board_dealing::dealing::take;
use board_history::History;
use provider_trait::Answer;
use task_agenda::Agenda;
use task_standings::{Standings, seen_stays};

/// The open Begins have these answers, in this order. It takes no memory.
pub fn answer_all<S: Standings>(
    standings: &S,
    history: &mut History,
    agenda: &mut Agenda,
    late: Vec<(u32, Answer)>,
)
    requires may { AreOpen (S.planned standings.now) (progress history.old.events) late.items }
    requires kept { (seen : ℕ) × IsKept (S.planned standings.now) (S.known standings.now) history.old.count
        history.old.events agenda.old seen }
    ensures kept { GoesOn (S.planned standings.now) (S.known standings.now) (S.known standings.now)
        history.old history.new agenda.old agenda.new }
    ensures history { history.new.events
        ≡ history.old.events ++ map (λ l. event.answer l.0 l.1) late.items }
{
    for (task, answer) in late {
        take(standings, history, agenda, task, answer);
    }
}

// How many events have happened.
fn happened(history: &History) -> usize
    ensures { result ≡ length history.now.events }
{
    history.events().len()
}

/// The service has stopped and started again: each open Begin is closed, and all tasks are looked at again.
pub fn restart<S: Standings>(
    _standings: &S,
    history: &mut History,
    agenda: &mut Agenda,
    seen: &mut usize,
) -> Result<(), OutOfMemory>
    requires { IsKept (S.planned _standings.now) (S.known _standings.now) history.old.count history.old.events
        agenda.old seen.old }
    ensures kept { OnOk result (IsKept (S.planned _standings.now) (S.known _standings.now) history.new.count
        history.new.events agenda.new seen.new) }
    ensures history { OnOk result (history.new ≡ with_event history.old crash) }
{
    seen_stays();
    history.crash()?;
    agenda.wake_all()?;
    *seen = happened(history);
    Ok(())
}
