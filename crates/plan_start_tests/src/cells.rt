// What a table has of its cells, in lines of text: a cell, and how far it is.

use arm_value::Text;
use plan_filling::visit::Circle;
use plan_table::frame::Instance;
use plan_table::line::{Spot, State};
use plan_table::table::Table;
use std::alloc::{AllocError, Global};

// The position of a scope: a slash, and the instances of nested deployments that lead to it, the outermost first.
fn push_position(out: &mut String, position: &[Instance]) -> Result<(), AllocError> {
    out.push('/')?;
    for instance in position.iter().rev() {
        write!(out, "{}.{}/", instance.resource, instance.copy)?;
    }
    Ok(())
}

/// Adds the position of the scope of a frame.
pub fn push_scope(out: &mut String, table: &Table, frame: usize) -> Result<(), AllocError> {
    match table.frames.as_slice().get(frame) {
        Some(frame) => push_position(out, frame.position.as_slice()),
        None => out.push('?'),
    }
}

// The names of what the scope of a frame declares.
fn parameter_at<'a>(table: &'a Table, frame: usize, at: usize) -> Option<&'a Text> {
    let frame = table.frames.as_slice().get(frame)?;
    let parameter = frame.template.parameters.at(at)?;
    Some(&parameter.name)
}

fn variable_at<'a>(table: &'a Table, frame: usize, at: usize) -> Option<&'a Text> {
    let frame = table.frames.as_slice().get(frame)?;
    let variable = frame.template.variables.at(at)?;
    Some(&variable.name)
}

fn output_at<'a>(table: &'a Table, frame: usize, at: usize) -> Option<&'a Text> {
    let frame = table.frames.as_slice().get(frame)?;
    let output = frame.template.outputs.at(at)?;
    Some(&output.name)
}

fn push_named(
    out: &mut String,
    table: &Table,
    word: &str,
    frame: usize,
    name: Option<&Text>,
) -> Result<(), AllocError> {
    write!(out, "{word} ")?;
    push_scope(out, table, frame)?;
    match name {
        Some(name) => write!(out, " {}", name.as_str()),
        None => out.push('?'),
    }
}

fn push_numbered(
    out: &mut String,
    table: &Table,
    word: &str,
    frame: usize,
    resource: usize,
    copy: usize,
) -> Result<(), AllocError> {
    write!(out, "{word} ")?;
    push_scope(out, table, frame)?;
    write!(out, " {resource}.{copy}")
}

/// Adds a cell: a word for what it is, the position of its scope, and its name or number there.
pub fn push_cell(out: &mut String, table: &Table, spot: Spot) -> Result<(), AllocError> {
    match spot {
        Spot::Parameter(f, at) => push_named(
            out,
            table,
            "parameter",
            f,
            parameter_at(table, f, at),
        ),
        Spot::Variable(f, at) => push_named(out, table, "variable", f, variable_at(table, f, at)),
        Spot::Offered(f, at) => push_named(out, table, "offered", f, output_at(table, f, at)),
        Spot::Output(f, at) => push_named(out, table, "output", f, output_at(table, f, at)),
        Spot::Count(f, r) => push_numbered(out, table, "count", f, r, 0),
        Spot::Included(f, r, i) => push_numbered(out, table, "included", f, r, i),
        Spot::Name(f, r, i) => push_numbered(out, table, "name", f, r, i),
        Spot::Deployments(f) => {
            out.push_str("deployments ")?;
            push_scope(out, table, f)
        }
    }
}

fn push_state(out: &mut String, alloc: Global, state: &State) -> Result<(), AllocError> {
    match state {
        State::New => out.push_str("new"),
        State::Open => out.push_str("open"),
        State::Value(value) => {
            let bytes = value.to_json(alloc)?;
            out.push_str(str::from_utf8(bytes.as_slice()).unwrap_or("?"))
        }
        State::Empty => out.push_str("none"),
        State::Late(key) => write!(out, "waits for {}", key.id().as_str()),
    }
}

/// Adds a line for each cell of the table.
pub fn push_cells(out: &mut String, alloc: Global, table: &Table) -> Result<(), AllocError> {
    for line in table.lines.as_slice() {
        push_cell(out, table, line.spot)?;
        out.push_str(" = ")?;
        push_state(out, alloc, &line.state)?;
        out.push('\n')?;
    }
    writeln!(out, "instances {}", table.instances)
}

fn push_member(out: &mut String, table: &Table, place: usize) -> Result<(), AllocError> {
    out.push_str("circle ")?;
    match table.lines.as_slice().get(place) {
        Some(line) => push_cell(out, table, line.spot)?,
        None => out.push('?')?,
    }
    out.push('\n')
}

/// Adds a line for each cell of a circle, without those that lead to it.
pub fn push_circle(out: &mut String, table: &Table, circle: &Circle) -> Result<(), AllocError> {
    let mut is_in = false;
    for place in circle.places.as_slice() {
        is_in = is_in || *place == circle.back;
        if is_in {
            push_member(out, table, *place)?;
        }
    }
    push_member(out, table, circle.last)
}
