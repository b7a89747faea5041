// The history of a deployment.

ghost use Rattle.std.specs.Prelude.{◌≡◌, ℕ, [], Some, true, false, map, is_ok, IfOk, option_map, slice_get};
ghost use Rattle.deploy_histories.specs.Events.{progress, done_status, state_in, IsBegun, NoneBegun};
ghost use Rattle.board_history.specs.Past.{event_of};
ghost use Rattle.board_history.specs.Stages.{begun_status, done_by, refusal_in, first_of, stored_in, code_in};

use crate::stage::{Stage, stage_at, waiting};
use arm_value::{OutOfMemory, Text};
use provider_trait::{Answer, Event, State};
use std::alloc::{AllocError, Global};
use std::marker::Model;

/// What has happened in a deployment of so many tasks, and how far each task is.
///
/// Contracts see the number of tasks and the events. Each open Begin has room for the event that ends it, so that
/// `answer` and `back` take no memory. A state is kept once, in its event.
#[derive(Drop)]
pub struct History {
    pub(crate) events: Vec<Event>,
    pub(crate) stages: Vec<Stage>,
    // The place of the first refusal.
    pub(crate) refusal: Option<usize>,
    // How many Begins are open.
    pub(crate) opened: usize,
}

impl Model for History {
    ghost use Rattle.std.specs.Prelude.{map, length, vec_capacity};
    ghost use Rattle.board_history.specs.Past.{Past, past_code, event_of};

    ghost Value = { Past };

    ghost coded = { past_code };

    ghost use Rattle.board_history.specs.Stages.{IsKept};

    ghost view = { λ h. record { count = length h.stages.items; events = map event_of h.events.items } };

    ghost invariant = { λ h. IsKept (map event_of h.events.items) h.stages.items h.refusal h.opened
        (vec_capacity h.events) };
}

// Fails; the part is dropped.
pub(crate) fn run_out<T: Drop, R: Drop>(_part: T) -> Result<R, OutOfMemory>
    ensures { is_ok result ≡ false }
{
    Err(AllocError)
}

/// The answer; the part is dropped.
pub fn letting_go<T: Drop, R>(answer: R, _part: T) -> R
    ensures { result ≡ answer }
{
    answer
}

// The place of the first refusal: the one that there is, or else this one.
pub(crate) fn first_place(refusal: Option<usize>, place: usize) -> Option<usize>
    ensures { result ≡ first_of refusal place }
{
    match refusal {
        Some(first) => Some(first),
        None => Some(place),
    }
}

impl History {
    /// The history of so many tasks in which nothing has happened.
    pub fn new(alloc: Global, count: u32) -> Result<History, OutOfMemory>
        ensures { IfOk result (λ h. h ≡ record { count = count; events = [] }) }
    {
        let stages = waiting(alloc, count as usize)?;
        Ok(History {
            events: Vec::new(alloc),
            stages,
            refusal: None,
            opened: 0,
        })
    }

    /// The number of tasks.
    pub fn count(&self) -> u32
        ensures { result ≡ self.now.count }
    {
        self.stages.len() as u32
    }

    /// What has happened, oldest first.
    pub fn events(&self) -> &[Event]
        ensures { map event_of result.now ≡ self.now.events }
    {
        self.events.as_slice()
    }

    /// What has happened, oldest first; how far the tasks are is dropped.
    pub fn into_events(self) -> Vec<Event>
        ensures { map event_of result.items ≡ self.events }
    {
        let History {
            events,
            stages,
            refusal: _,
            opened: _,
        } = self;
        letting_go(events, stages)
    }

    /// Whether the task is done.
    pub fn is_done(&self, task: u32) -> bool
        ensures { result ≡ done_status ((progress self.now.events).status task) }
    {
        match stage_at(&self.stages, task) {
            Stage::Waiting => false,
            Stage::Begun(_) => false,
            Stage::Done(_) => true,
        }
    }

    /// Whether a Begin of the task is open.
    pub fn is_begun(&self, task: u32) -> bool
        ensures { result ≡ begun_status ((progress self.now.events).status task) }
    {
        match stage_at(&self.stages, task) {
            Stage::Waiting => false,
            Stage::Begun(_) => true,
            Stage::Done(_) => false,
        }
    }

    /// The state that was stored of the task. None where it is not done, and where nothing was put.
    pub fn state(&self, task: u32) -> Option<&State>
        ensures { option_map (λ s. s.now) result ≡ state_in ((progress self.now.events).status task) }
    {
        match stage_at(&self.stages, task) {
            Stage::Done(place) => state_at(self.events.as_slice(), place),
            _ => None,
        }
    }

    /// Whether no Begin is open.
    pub fn is_idle(&self) -> bool
        ensures idle { result ≡ true → NoneBegun (progress self.now.events) }
        ensures busy { result ≡ false → (u : ℕ) × IsBegun (progress self.now.events) u }
    {
        self.opened == 0
    }

    /// The first answer that refused: its task and its code.
    pub fn refusal(&self) -> Option<(u32, &Text)>
        ensures { option_map (λ r. record { task = r.0; code = r.1.now }) result
            ≡ (progress self.now.events).refusal }
    {
        match self.refusal {
            Some(place) => refusal_at(self.events.as_slice(), place),
            None => None,
        }
    }
}

// The state that the event at a place has.
fn state_at(events: &[Event], place: usize) -> Option<&State>
    ensures { option_map (λ s. s.now) result ≡ state_in (done_by (slice_get (map event_of events.now) place)) }
{
    match events.get(place) {
        Some(event) => state_of(event),
        None => None,
    }
}

// The state that the event has.
fn state_of(event: &Event) -> Option<&State>
    ensures { option_map (λ s. s.now) result ≡ state_in (done_by (Some (event_of event.now))) }
{
    match event {
        Event::Answer(_, answer) => stored_in(answer),
        _ => None,
    }
}

// The state that the answer has.
fn stored_in(answer: &Answer) -> Option<&State>
    ensures { option_map (λ s. s.now) result ≡ stored_in answer.now }
{
    match answer {
        Answer::Stored(state) => Some(state),
        _ => None,
    }
}

// The refusal that the event at a place is.
fn refusal_at(events: &[Event], place: usize) -> Option<(u32, &Text)>
    ensures { option_map (λ r. record { task = r.0; code = r.1.now }) result
        ≡ refusal_in (slice_get (map event_of events.now) place) }
{
    match events.get(place) {
        Some(event) => refusal_of(event),
        None => None,
    }
}

// The refusal that the event is.
fn refusal_of(event: &Event) -> Option<(u32, &Text)>
    ensures { option_map (λ r. record { task = r.0; code = r.1.now }) result ≡ refusal_in (Some (event_of event.now)) }
{
    match event {
        Event::Answer(task, answer) => match code_in(answer) {
            Some(code) => Some((*task, code)),
            None => None,
        },
        _ => None,
    }
}

// The code by which the answer refuses.
fn code_in(answer: &Answer) -> Option<&Text>
    ensures { option_map (λ c. c.now) result ≡ code_in answer.now }
{
    match answer {
        Answer::Refused(code) => Some(code),
        _ => None,
    }
}
