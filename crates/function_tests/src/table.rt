// Tables of calls. A line has a name, the arguments as a JSON array, and after an arrow the wanted
// value as compact JSON, `none`, or why the function is not called. A second name after a bar is
// that of a function which is called with the value of the first alone.

use arm_functions::{FunctionFault, call};
use arm_value::Value;
use std::alloc::Global;
use std::test::Fail;

// The arguments that the JSON array lists.
fn arguments(alloc: Global, text: &str) -> Result<Vec<Value>, Fail> {
    match Value::from_json(alloc, text.as_bytes())? {
        Value::Array(items) => Ok(items.into_vec(alloc)),
        value => Ok(vec![in alloc; value]?),
    }
}

fn compact(alloc: Global, value: &Value) -> Result<String, Fail> {
    Ok(String::from_utf8(value.to_json(alloc)?.into_vec())?)
}

// The compact text of the value, `none`, or why the function is not called.
fn shown(alloc: Global, gave: &Result<Option<Value>, FunctionFault>) -> Result<String, Fail> {
    match gave {
        Ok(Some(value)) => compact(alloc, value),
        Ok(None) => Ok(String::from_str(alloc, "none")?),
        Err(fault) => Ok(format!(in alloc; "{fault}")?),
    }
}

// What the function of this name gives for the arguments.
fn answer(alloc: Global, name: &str, args: &[Value]) -> Result<String, Fail> {
    let gave = call(alloc, name, args);
    shown(alloc, &gave)
}

// What the function of this name gives for the value that one gives to the arguments.
fn second_answer(alloc: Global, first: &str, args: &[Value], name: &str) -> Result<String, Fail> {
    match call(alloc, first, args)? {
        Some(value) => answer(alloc, name, [value].as_slice()),
        None => Ok(String::from_str(alloc, "no first value")?),
    }
}

// What the call of a line gives.
fn called(alloc: Global, text: &str) -> Result<String, Fail> {
    let (first, second) = text.split_once(" | ").unwrap_or((text, ""));
    let (name, args) = first.split_once(' ').unwrap_or((first, "[]"));
    let args = arguments(alloc, args)?;
    if second.is_empty() {
        return answer(alloc, name, args.as_slice());
    }
    second_answer(alloc, name, args.as_slice(), second)
}

/// Fails where something else is found than the line says.
pub fn compare(line: &str, found: &str, wanted: &str) -> Result<(), Fail> {
    if found == wanted {
        return Ok(());
    }
    Err(Fail::new(format_args!("{line} but {found}")))
}

fn check_line(alloc: Global, line: &str) -> Result<(), Fail> {
    let (text, wanted) = line.split_once(" -> ").unwrap_or((line, "a wanted answer"));
    let found = called(alloc, text)?;
    compare(line, found.as_str(), wanted)
}

/// Fails at the first line whose call gives something else than the line says.
pub fn check(alloc: Global, table: &str) -> Result<(), Fail> {
    for line in table.lines() {
        check_line(alloc, line)?;
    }
    Ok(())
}
