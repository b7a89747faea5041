//! What is known of a plan at its start, in lines of text.

use crate::lines::push_position;
use arm_value::{Bytes, Text, Value};
use plan_table::frame::Frame;
use plan_table::line::{Line, Spot, State};
use plan_table::table::Table;
use std::alloc::{AllocError, Global};

fn push_bytes(out: &mut String, bytes: &Bytes) -> Result<(), AllocError> {
    match str::from_utf8(bytes.as_slice()) {
        Ok(text) => out.push_str(text),
        Err(_) => out.push('?'),
    }
}

// Adds a space, the value as JSON, and the end of the line.
fn push_value(alloc: Global, out: &mut String, value: &Value) -> Result<(), AllocError> {
    let bytes = value.to_json(alloc)?;
    out.push(' ')?;
    push_bytes(out, &bytes)?;
    out.push('\n')
}

// Adds a word, and the position of a scope.
fn push_word(out: &mut String, frame: &Frame, word: &str) -> Result<(), AllocError> {
    out.push_str(word)?;
    out.push(' ')?;
    push_position(out, frame.position.as_slice())
}

fn push_name(out: &mut String, name: Option<&Text>) -> Result<(), AllocError> {
    out.push(' ')?;
    match name {
        Some(name) => out.push_str(name.as_str()),
        None => out.push('?'),
    }
}

// The name of the variable at a place.
fn variable<'a>(frame: &Frame<'a>, place: usize) -> Option<&'a Text> {
    Some(&frame.template.variables.as_slice().get(place)?.name)
}

// The name of the output at a place.
fn output<'a>(frame: &Frame<'a>, place: usize) -> Option<&'a Text> {
    Some(&frame.template.outputs.as_slice().get(place)?.name)
}

// Adds which cell a value is of.
fn push_spot(out: &mut String, frame: &Frame, spot: Spot) -> Result<(), AllocError> {
    match spot {
        Spot::Variable(_, place) => {
            push_word(out, frame, "variable")?;
            push_name(out, variable(frame, place))
        }
        Spot::Output(_, place) => {
            push_word(out, frame, "output")?;
            push_name(out, output(frame, place))
        }
        Spot::Count(_, resource) => {
            push_word(out, frame, "count")?;
            write!(out, "{resource}")
        }
        Spot::Included(_, resource, copy) => {
            push_word(out, frame, "included")?;
            write!(out, "{resource}.{copy}")
        }
        Spot::Name(_, resource, copy) => {
            push_word(out, frame, "name")?;
            write!(out, "{resource}.{copy}")
        }
        _ => push_word(out, frame, "other"),
    }
}

// The number of the frame of a cell.
fn frame_of(spot: Spot) -> usize {
    match spot {
        Spot::Parameter(frame, _) => frame,
        Spot::Variable(frame, _) => frame,
        Spot::Offered(frame, _) => frame,
        Spot::Output(frame, _) => frame,
        Spot::Count(frame, _) => frame,
        Spot::Included(frame, _, _) => frame,
        Spot::Name(frame, _, _) => frame,
        Spot::Deployments(frame) => frame,
    }
}

// Adds the value of a cell, where it has one.
fn push_line(
    alloc: Global,
    out: &mut String,
    table: &Table,
    line: &Line,
) -> Result<(), AllocError> {
    match (
        &line.state,
        table.frames.as_slice().get(frame_of(line.spot)),
    ) {
        (State::Value(value), Some(frame)) => {
            push_spot(out, frame, line.spot)?;
            push_value(alloc, out, value)
        }
        _ => Ok(()),
    }
}

/// Adds a line for each variable, output, count, condition and name that is known at the start, as
/// `name /1.0/0.2 "a"`.
///
/// # Errors
///
/// There is no memory.
pub fn push_values(alloc: Global, out: &mut String, table: &Table) -> Result<(), AllocError> {
    for line in table.lines.as_slice() {
        push_line(alloc, out, table, line)?;
    }
    Ok(())
}
