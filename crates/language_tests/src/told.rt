// What the evaluator answers, as a text.

use crate::table::letting_go;
use arm_env::cell::Cell;
use arm_env::env::Env;
use arm_env::stop::Stop;
use arm_eval::{Got, eval, eval_tree};
use arm_expr::{Expr, ExprFault, read};
use arm_ids::Key;
use arm_value::Value;
use std::alloc::{AllocError, Global};

fn text_of(bytes: &[u8]) -> &str {
    match str::from_utf8(bytes) {
        Ok(text) => text,
        Err(_) => "no text",
    }
}

/// Adds the compact text of the value.
pub fn say_json(out: &mut String, alloc: Global, value: &Value) -> Result<(), AllocError> {
    let bytes = value.to_json(alloc)?;
    out.push_str(text_of(bytes.as_slice()))
}

/// Adds the compact text of a value, or the word for none.
pub fn say_maybe(
    out: &mut String,
    alloc: Global,
    value: &Option<Value>,
    none: &str,
) -> Result<(), AllocError> {
    match value {
        Some(value) => say_json(out, alloc, value),
        None => out.push_str(none),
    }
}

fn say_needs(out: &mut String, alloc: Global, key: &Key) -> Result<(), AllocError> {
    let id = key.to_id(alloc)?;
    write!(out, "needs {}", id.as_str())
}

// Adds the cell that is waited for; all but states are late.
fn say_cell(out: &mut String, alloc: Global, cell: &Cell) -> Result<(), AllocError> {
    match cell {
        Cell::State(key) => say_needs(out, alloc, key),
        _ => out.push_str("late"),
    }
}

/// Adds what is known in place of a value; `needs` goes before the id of a key.
pub fn say_stop(out: &mut String, alloc: Global, stop: &Stop) -> Result<(), AllocError> {
    match stop {
        Stop::NoValue => out.push_str("none"),
        Stop::Waits(cell) => say_cell(out, alloc, cell),
        Stop::OutOfMemory => Err(AllocError),
    }
}

/// Adds the compact text of a value that was found, or what is known in place of one.
pub fn say_found(
    out: &mut String,
    alloc: Global,
    found: &Result<Value, Stop>,
) -> Result<(), AllocError> {
    match found {
        Ok(value) => say_json(out, alloc, value),
        Err(stop) => say_stop(out, alloc, stop),
    }
}

fn say_got(out: &mut String, alloc: Global, got: &Got) -> Result<(), AllocError> {
    match got {
        Got::Value(value) => say_json(out, alloc, value),
        Got::NoValue => out.push_str("none"),
        Got::Needs(key) => say_needs(out, alloc, key),
        Got::Late => out.push_str("late"),
    }
}

fn say_answer(
    out: &mut String,
    alloc: Global,
    got: &Result<Got, AllocError>,
) -> Result<(), AllocError> {
    match got {
        Ok(got) => say_got(out, alloc, got),
        Err(_) => Err(AllocError),
    }
}

fn say_value(out: &mut String, alloc: Global, env: &Env, e: &Expr) -> Result<(), AllocError> {
    let got = eval(alloc, env, e);
    letting_go(say_answer(out, alloc, &got), got)
}

fn say_read(
    out: &mut String,
    alloc: Global,
    env: &Env,
    read: &Result<Expr, ExprFault>,
) -> Result<(), AllocError> {
    match read {
        Ok(e) => say_value(out, alloc, env, e),
        Err(fault) => write!(out, "{fault}"),
    }
}

/// Adds what `eval` says of the expression that the text spells within brackets.
pub fn say_expression(
    out: &mut String,
    alloc: Global,
    env: &Env,
    asked: &str,
) -> Result<(), AllocError> {
    let spelled = format!(in alloc; "[{asked}]")?;
    let read = read(alloc, spelled.as_str());
    letting_go(say_read(out, alloc, env, &read), read)
}

/// Adds what `eval_tree` says of a tree.
pub fn say_tree(
    out: &mut String,
    alloc: Global,
    env: &Env,
    tree: &Value,
) -> Result<(), AllocError> {
    let got = eval_tree(alloc, env, tree);
    letting_go(say_answer(out, alloc, &got), got)
}
