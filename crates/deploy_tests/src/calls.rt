// The calls on a provider, as text.

use provider_trait::{Answer, Call, Catalog, Provider, Script};
use std::alloc::{AllocError, Global};

/// A provider that lists its calls.
pub trait Listing: Provider {
    /// The calls, in their order.
    fn list(&self) -> &[Call];
}

impl Listing for Catalog {
    fn list(&self) -> &[Call] {
        self.calls()
    }
}

impl Listing for Script {
    fn list(&self) -> &[Call] {
        self.calls()
    }
}

/// What is shown of a call.
#[derive(Clone, Copy)]
pub enum Shown {
    /// The name of the resource.
    Names,
    /// Its name and the body.
    Bodies,
    /// The body, the first part of the call's record and what was stored, each in a line.
    Whole,
}

/// The bytes as a text.
pub fn text_of(bytes: &[u8]) -> &str {
    match str::from_utf8(bytes) {
        Ok(text) => text,
        Err(_) => "no text",
    }
}

// Adds the body of a call.
fn say_body(text: &mut String, alloc: Global, call: &Call) -> Result<(), AllocError> {
    let body = call.job.body().to_json(alloc)?;
    text.push_str(text_of(body.as_slice()))
}

// Adds the name after the last slash of the call's id.
fn say_name(text: &mut String, call: &Call) -> Result<(), AllocError> {
    text.push_str(call.job.id().as_str().rsplit('/').next().unwrap_or(""))
}

fn say_whole(text: &mut String, alloc: Global, call: &Call) -> Result<(), AllocError> {
    say_body(text, alloc, call)?;
    let first = text_of(call.job.first().as_slice());
    let state = match &call.gave {
        Ok(Answer::Stored(state)) => text_of(state.text().as_slice()),
        _ => "not stored",
    };
    write!(text, "\n{first}\n{state}")
}

fn say_call(text: &mut String, alloc: Global, call: &Call, shown: Shown) -> Result<(), AllocError> {
    match shown {
        Shown::Names => say_name(text, call),
        Shown::Bodies => {
            say_name(text, call)?;
            say_body(text, alloc, call)
        }
        Shown::Whole => say_whole(text, alloc, call),
    }
}

/// Adds what is shown of the calls, in brackets.
pub fn say_calls(
    text: &mut String,
    alloc: Global,
    calls: &[Call],
    shown: Shown,
) -> Result<(), AllocError> {
    text.push_str("[")?;
    for call in calls {
        say_call(text, alloc, call, shown)?;
    }
    text.push_str("]")
}
