// Which Begins are open, by the events of a history.
ghost use Rattle.std.specs.Prelude.{◌≡◌, ◌&&◌, ◌||◌, map, not};
ghost use Rattle.board_history.specs.Past.{event_of};
ghost use Rattle.deploy_histories.specs.Events.{after, progress, Progress};
ghost use Rattle.given_plans.specs.Open.{is_open_now};

use provider_trait::Event;

// What was so is so still, but for the same task.
fn but_not(was: bool, same: bool) -> bool
    ensures { result ≡ (was && not same) }
{
    was && !same
}

// What was so, or the same task.
fn or_same(was: bool, same: bool) -> bool
    ensures { result ≡ (was || same) }
{
    was || same
}

// Whether a Begin of the task is open after an event, where before it this was so.
fn open_after(was: bool, task: u32, event: &Event) -> bool
    ensures { (p : Progress) → was ≡ is_open_now p task → result ≡ is_open_now (after (event_of event.now) p) task }
{
    match event {
        Event::Enter(other) => but_not(was, task == *other),
        Event::Begin(other, _, _) => or_same(was, task == *other),
        Event::Answer(other, _) => but_not(was, task == *other),
        Event::Back(other) => but_not(was, task == *other),
        Event::Leave(other) => but_not(was, task == *other),
        Event::Crash => false,
    }
}

/// Whether a Begin of the task is open.
pub fn is_open(events: &[Event], task: u32) -> bool
    ensures { result ≡ is_open_now (progress (map event_of events.now)) task }
{
    let mut open = false;
    for event in events {
        open = open_after(open, task, event);
    }
    open
}
