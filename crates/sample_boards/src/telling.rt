//! Histories as texts.

use provider_trait::{Answer, Event};
use std::alloc::{AllocError, Global};

fn write_answer(out: &mut String, task: u32, answer: &Answer) -> Result<(), AllocError> {
    match answer {
        Answer::Stored(_) => write!(out, "stored {task}"),
        Answer::Gone => write!(out, "gone {task}"),
        Answer::Refused(code) => write!(out, "refused {task} {}", code.as_str()),
    }
}

fn write_event(out: &mut String, event: &Event) -> Result<(), AllocError> {
    match event {
        Event::Enter(task) => write!(out, "enter {task}"),
        Event::Begin(task, worker, _) => write!(out, "begin {task} {worker}"),
        Event::Answer(task, answer) => write_answer(out, *task, answer),
        Event::Back(task) => write!(out, "back {task}"),
        Event::Leave(task) => write!(out, "leave {task}"),
        Event::Crash => out.push_str("crash"),
    }
}

fn write_events(out: &mut String, events: &[Event]) -> Result<(), AllocError> {
    for event in events {
        if !out.is_empty() {
            out.push_str(", ")?;
        }
        write_event(out, event)?;
    }
    Ok(())
}

/// The events with commas between, as `enter 0, begin 1 7, stored 1`.
///
/// # Errors
///
/// There is no memory.
pub fn told(alloc: Global, events: &[Event]) -> Result<String, AllocError> {
    let mut text = String::new(alloc);
    write_events(&mut text, events)?;
    Ok(text)
}
