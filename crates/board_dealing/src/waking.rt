// Tasks are listed again after what has happened.

ghost use Rattle.std.specs.Prelude.{◌≡◌, ◌<◌, ℕ, Some, OnOk, length};
ghost use Rattle.board_history.specs.Past.{event_of};
ghost use Rattle.task_agenda.specs.Agendas.{count, Keeps};
ghost use Rattle.board_dealing.specs.Kept.{waker, IsKept};
ghost use Rattle.board_dealing.specs.Looks.{IsHeard};

use arm_value::OutOfMemory;
use board_history::History;
use provider_trait::Event;
use task_agenda::Agenda;
use task_standings::Standings;

// The task after whose event others are looked at.
fn waker(event: &Event) -> Option<u32>
    ensures { result ≡ waker (event_of event.now) }
{
    match event {
        Event::Enter(task) => Some(*task),
        Event::Begin(_, _, _) => None,
        Event::Answer(task, _) => Some(*task),
        Event::Back(task) => Some(*task),
        Event::Leave(task) => Some(*task),
        Event::Crash => None,
    }
}

// Lists those that wait for the event.
fn hear(agenda: &mut Agenda, event: &Event) -> Result<(), OutOfMemory>
    requires { (v : ℕ) → waker (event_of event.now) ≡ Some v → v < count agenda.old }
    ensures keeps { Keeps agenda.old agenda.new }
    ensures heard { OnOk result (IsHeard agenda.new (event_of event.now)) }
{
    match waker(event) {
        Some(task) => agenda.wake(task),
        None => Ok(()),
    }
}

/// Lists those that wait for the events from the place on. After `OutOfMemory` the place may be a later one.
pub fn catch_up<S: Standings>(
    standings: &S,
    history: &History,
    agenda: &mut Agenda,
    seen: &mut usize,
) -> Result<(), OutOfMemory>
    requires { IsKept (S.planned standings.now) (S.known standings.now) history.now.count history.now.events
        agenda.old seen.old }
    ensures kept { IsKept (S.planned standings.now) (S.known standings.now) history.now.count history.now.events
        agenda.new seen.new }
    ensures caught { OnOk result (seen.new ≡ length history.now.events) }
{
    let events = history.events();
    'places: while let Some(event) = events.get(*seen) {
        hear(agenda, event)?;
        *seen += 1;
    }
    Ok(())
}
