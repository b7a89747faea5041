//! Values of template expressions by a plain program, which leaves strict functions to `arm_functions`. A value is
//! compact JSON, and the word `none` where there is no value.

use crate::values::{copied, inner};
use arm_expr::Expr;
use arm_functions::call;
use arm_value::{Text, Value};
use bicep_found::join::let_go;
use std::alloc::{AllocError, Global};

fn json_of(alloc: Global, value: &Value) -> Result<String, AllocError> {
    let bytes = value.to_json(alloc)?;
    String::from_str(alloc, str::from_utf8(bytes.as_slice()).unwrap_or("none"))
}

fn shown(alloc: Global, value: Option<&Value>) -> Result<String, AllocError> {
    match value {
        Some(value) => json_of(alloc, value),
        None => copied(alloc, "none"),
    }
}

fn read(alloc: Global, json: &str) -> Option<Value> {
    Value::from_json(alloc, json.as_bytes()).ok()
}

fn text_of(alloc: Global, text: &Text) -> Result<String, AllocError> {
    let value = Value::Text(text.copy(alloc)?);
    let json = json_of(alloc, &value);
    let_go(value);
    json
}

// The part of a value at an index, or its member of that name.
fn part_of<'a>(all: &'a Option<Value>, index: &Option<Value>) -> Option<&'a Value> {
    match (all, index) {
        (Some(Value::Array(items)), Some(Value::Int(place))) => match usize::try_from(*place) {
            Ok(place) => items.at(place),
            Err(_) => None,
        },
        (Some(value), Some(Value::Text(name))) => value.look(name.as_str()),
        _ => None,
    }
}

fn part(alloc: Global, all: &str, index: &str) -> Result<String, AllocError> {
    let all = read(alloc, all);
    let index = read(alloc, index);
    let found = shown(alloc, part_of(&all, &index));
    let_go((all, index));
    found
}

fn joined_part(
    alloc: Global,
    all: Result<String, AllocError>,
    index: Result<String, AllocError>,
) -> Result<String, AllocError> {
    match (all, index) {
        (Ok(all), Ok(index)) => part(alloc, all.as_str(), index.as_str()),
        _ => Err(AllocError),
    }
}

fn argument<'a>(all: &'a [String], place: usize) -> &'a str {
    match all.get(place) {
        Some(value) => value.as_str(),
        None => "none",
    }
}

fn put_item(out: &mut String, value: &str) -> Result<(), AllocError> {
    if out.len() > 1 {
        out.push_str(",")?;
    }
    out.push_str(value)
}

// Writes the array of the arguments, which is no JSON where one has no value.
fn put_array(out: &mut String, all: &[String]) -> Result<(), AllocError> {
    out.push_str("[")?;
    for value in all {
        put_item(out, value.as_str())?;
    }
    out.push_str("]")
}

fn applied(alloc: Global, name: &str, arguments: &[Value]) -> Result<String, AllocError> {
    let value = call(alloc, name, arguments).unwrap_or(None);
    let found = shown(alloc, value.as_ref());
    let_go(value);
    found
}

// The value of a function that looks at all its arguments.
fn strict(alloc: Global, name: &str, all: &[String]) -> Result<String, AllocError> {
    let mut array = String::new(alloc);
    put_array(&mut array, all)?;
    let value = read(alloc, array.as_str());
    let found = match &value {
        Some(Value::Array(items)) => applied(alloc, name, items.as_slice()),
        _ => copied(alloc, "none"),
    };
    let_go(value);
    found
}

fn is_truth(value: &str) -> bool {
    value == "true" || value == "false"
}

fn chosen<'a>(all: &'a [String]) -> &'a str {
    match argument(all, 0) {
        "true" => argument(all, 1),
        "false" => argument(all, 2),
        _ => "none",
    }
}

// The first argument where it is this, and else the second.
fn junction<'a>(all: &'a [String], end: &str) -> &'a str {
    let first = argument(all, 0);
    if first == end || !is_truth(first) {
        return if is_truth(first) { first } else { "none" };
    }
    argument(all, 1)
}

fn coalesced<'a>(all: &'a [String]) -> &'a str {
    match argument(all, 0) {
        "null" => argument(all, 1),
        first => first,
    }
}

// The value of a parameter or a variable.
fn entry(name: &str) -> &'static str {
    match name {
        "\"p\"" => "\"Pp\"",
        "\"xs\"" => "[3,4,5]",
        "\"v\"" => "7",
        _ => "none",
    }
}

// The value of a function that is the same whatever its other arguments are.
fn known(name: &str, all: &[String]) -> Option<&'static str> {
    match name {
        "parameters" | "variables" => Some(entry(argument(all, 0))),
        "copyIndex" => Some("1"),
        _ => None,
    }
}

// The value of a function that does not look at all its arguments.
fn lazy<'a>(name: &str, all: &'a [String]) -> Option<&'a str> {
    match name {
        "if" => Some(chosen(all)),
        "and" => Some(junction(all, "false")),
        "or" => Some(junction(all, "true")),
        "coalesce" => Some(coalesced(all)),
        _ => known(name, all),
    }
}

// The two arguments with a slash between them.
fn id(alloc: Global, kind: &str, number: &str) -> Result<String, AllocError> {
    if !kind.starts_with('"') || number.parse::<i64>().is_err() {
        return copied(alloc, "none");
    }
    format!(in alloc; "\"{}/{number}\"", inner(kind))
}

// The state of the deployment of a module.
fn deployment(alloc: Global, id: &str, n: usize) -> Result<String, AllocError> {
    format!(in alloc; "{{\"outputs\":{{\"last\":{{\"value\":{n}}},\"o\":{{\"value\":{id}}}}}}}")
}

fn properties(alloc: Global, id: &str, n: usize) -> Result<String, AllocError> {
    format!(in alloc; "{{\"id\":{id},\"n\":{n}}}")
}

fn whole_state(alloc: Global, id: &str) -> Result<String, AllocError> {
    format!(in alloc; "{{\"location\":{id},\"properties\":null}}")
}

// The state at an id: of a module, the properties of a resource, or the whole state of a resource.
fn state(alloc: Global, count: usize, id: &str) -> Result<String, AllocError> {
    if !id.starts_with('"') {
        return copied(alloc, "none");
    }
    match count {
        1 => deployment(alloc, id, inner(id).len()),
        2 => properties(alloc, id, inner(id).len()),
        _ => whole_state(alloc, id),
    }
}

fn called(alloc: Global, name: &str, all: &[String]) -> Result<String, AllocError> {
    if let Some(value) = lazy(name, all) {
        return copied(alloc, value);
    }
    match name {
        "resourceId" => id(alloc, argument(all, 0), argument(all, 1)),
        "reference" => state(alloc, all.len(), argument(all, 0)),
        _ => strict(alloc, name, all),
    }
}

#[cycle(valuing)]
fn put_values(alloc: Global, items: &[Expr], all: &mut Vec<String>) -> Result<(), AllocError> {
    for item in items {
        let value = value_of(alloc, item)?;
        all.push(value)?;
    }
    Ok(())
}

#[cycle(valuing)]
fn call_value(alloc: Global, name: &str, arguments: &[Expr]) -> Result<String, AllocError> {
    let mut all = Vec::new(alloc);
    put_values(alloc, arguments, &mut all)?;
    called(alloc, name, all.as_slice())
}

/// The value of an expression.
#[cycle(valuing)]
pub fn value_of(alloc: Global, e: &Expr) -> Result<String, AllocError> {
    match e {
        Expr::Text(text) => text_of(alloc, text),
        Expr::Int(number) => format!(in alloc; "{number}"),
        Expr::Call(name, arguments) => call_value(alloc, name.as_str(), arguments.as_slice()),
        Expr::Member(all, name) => joined_part(alloc, value_of(alloc, all), text_of(alloc, name)),
        Expr::Index(all, index) => joined_part(alloc, value_of(alloc, all), value_of(alloc, index)),
    }
}
