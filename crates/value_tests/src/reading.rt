// Which bytes are read as a value, and how it is written.

use crate::answers::Question;
use crate::table::{check, compare, letting_go, two};
use crate::written::{say_json, say_maybe};
use arm_value::{JsonFault, Value};
use std::alloc::{AllocError, Global};
use std::test::Fail;

// Adds why nothing was read; the path follows the name of a fault that has one.
fn say_fault(out: &mut String, fault: &JsonFault) -> Result<(), AllocError> {
    match fault {
        JsonFault::NotJson => out.push_str("NotJson"),
        JsonFault::TooDeep => out.push_str("TooDeep"),
        JsonFault::NotWhole(path) => {
            out.push_str("NotWhole")?;
            out.push_str(path.as_str())
        }
        JsonFault::OutOfMemory => out.push_str("OutOfMemory"),
    }
}

fn say_found(
    out: &mut String,
    alloc: Global,
    read: &Result<Value, JsonFault>,
) -> Result<(), AllocError> {
    match read {
        Ok(value) => say_json(out, alloc, value),
        Err(fault) => say_fault(out, fault),
    }
}

/// Adds the compact text of what is read, or why nothing is.
pub fn say_read(out: &mut String, alloc: Global, bytes: &[u8]) -> Result<(), AllocError> {
    let read = Value::from_json(alloc, bytes);
    letting_go(say_found(out, alloc, &read), read)
}

const VALUES: &str = r#"7 -> 7
-9223372036854775808 -> -9223372036854775808
9223372036854775807 -> 9223372036854775807
{"a":1,"b":2,"a":3} -> {"a":3,"b":2}
{"a":1.5,"a":2} -> {"a":2}
{"":[],"A":{},"a":false} -> {"":[],"A":{},"a":false}
"\u0041\n\"\\\/\uD83D\uDE00" -> "A\n\"\\/😀""#;

#[test]
fn a_text_of_json_is_read_as_its_value(rt: HostRuntime) -> Result<(), Fail> {
    check(rt.alloc(), Question::Read, VALUES)
}

// Compares what is read of bytes that are not those of a line.
fn check_bytes(alloc: Global, asked: &str, bytes: &[u8], wanted: &str) -> Result<(), Fail> {
    let mut found = String::new(alloc);
    say_read(&mut found, alloc, bytes)?;
    compare(asked, found.as_str(), wanted)
}

#[test]
fn blanks_and_newlines_may_be_between_tokens(rt: HostRuntime) -> Result<(), Fail> {
    let bytes = b" {\"b\" : [1, null, true],\n\t\"a\":\"x\"} ";
    let wanted = r#"{"a":"x","b":[1,null,true]}"#;
    check_bytes(rt.alloc(), "blanks", bytes, wanted)
}

#[test]
fn bytes_that_are_no_utf_8_are_no_json(rt: HostRuntime) -> Result<(), Fail> {
    check_bytes(rt.alloc(), "no UTF-8", b"\"\xff\"", "NotJson")
}

const NO_JSON: &str = r#""\ud83d" -> NotJson
"\x" -> NotJson
 -> NotJson
{ -> NotJson
[1,] -> NotJson
1 2 -> NotJson
01 -> NotJson
+1 -> NotJson
1e999 -> NotJson"#;

#[test]
fn other_texts_are_no_json(rt: HostRuntime) -> Result<(), Fail> {
    check(rt.alloc(), Question::Read, NO_JSON)
}

// A path follows the fault's name; that of the whole value is empty.
const NOT_WHOLE: &str = r#"1.5 -> NotWhole
1e2 -> NotWhole
2.0 -> NotWhole
-0 -> NotWhole
9223372036854775808 -> NotWhole
-9223372036854775809 -> NotWhole
18446744073709551616 -> NotWhole
[0,[1,2.5],3.5] -> NotWhole/1/1
{"k":[0,{"m":2.0}]} -> NotWhole/k/1/m
{"b":0.1,"a":{"x/y~z":0.2}} -> NotWhole/a/x~1y~0z"#;

#[test]
fn the_first_number_that_is_not_whole_is_named_by_its_path(rt: HostRuntime) -> Result<(), Fail> {
    check(rt.alloc(), Question::Read, NOT_WHOLE)
}

fn push_times(text: &mut String, bracket: char, times: usize) -> Result<(), AllocError> {
    for _ in 0..times {
        text.push(bracket)?;
    }
    Ok(())
}

// Adds so many arrays, one in another, around the text.
fn add_nested(text: &mut String, depth: usize, inside: &str) -> Result<(), AllocError> {
    push_times(text, '[', depth)?;
    text.push_str(inside)?;
    push_times(text, ']', depth)
}

// Adds how deep what is read nests, or why nothing is read.
fn say_nesting(out: &mut String, read: &Result<Value, JsonFault>) -> Result<(), AllocError> {
    match read {
        Ok(value) => write!(out, "{}", value.nesting()),
        Err(fault) => say_fault(out, fault),
    }
}

/// Adds how deep what is read nests, or why nothing is read, of a text within so many arrays; their number is before
/// it.
pub fn say_nested(out: &mut String, alloc: Global, asked: &str) -> Result<(), AllocError> {
    let (depth, inside) = two(asked);
    let mut text = String::new(alloc);
    add_nested(&mut text, depth.parse().unwrap_or(0), inside)?;
    let read = Value::from_json(alloc, text.as_bytes());
    letting_go(say_nesting(out, &read), read)
}

const NESTED: &str = "120 -> 120
121 -> TooDeep
121 1.5 -> TooDeep
127 7 -> TooDeep
128 -> NotJson";

#[test]
fn values_nest_at_most_120_deep(rt: HostRuntime) -> Result<(), Fail> {
    check(rt.alloc(), Question::Nested, NESTED)
}

// Adds an object whose 300,001 members come in falling order of their names.
fn add_falling(text: &mut String) -> Result<(), AllocError> {
    text.push_str("{\"last\":0")?;
    for i in 0..300_000u32 {
        let number = 999_999 - i;
        write!(text, ",\"k{number}\":{number}")?;
    }
    text.push_str("}")
}

// The name of the object's member at that place, `none` at the end.
fn name_at(value: &Value, place: usize) -> &str {
    match value {
        Value::Object(fields) => match fields.at(place) {
            Some((name, _)) => name,
            None => "none",
        },
        _ => "no object",
    }
}

// Adds the names of the first member, of the last, and of none after it, and the member of a name.
fn say_members(out: &mut String, alloc: Global, value: &Value) -> Result<(), AllocError> {
    let (first, last) = (name_at(value, 0), name_at(value, 300_000));
    write!(out, "{first} {last} {} ", name_at(value, 300_001))?;
    say_maybe(out, alloc, value.look("k850000"))
}

// Adds what its members are, and whether its text has the length of the text that was read.
fn say_large(
    out: &mut String,
    alloc: Global,
    value: &Value,
    length: usize,
) -> Result<(), AllocError> {
    say_members(out, alloc, value)?;
    let text = value.to_json(alloc)?;
    let is_as_long = text.as_slice().len() == length;
    out.push_str(if is_as_long {
        ", as long"
    } else {
        ", of another length"
    })
}

// Adds the same of what was read, or why nothing was.
fn say_read_large(
    out: &mut String,
    alloc: Global,
    read: &Result<Value, JsonFault>,
    length: usize,
) -> Result<(), AllocError> {
    match read {
        Ok(value) => say_large(out, alloc, value, length),
        Err(fault) => say_fault(out, fault),
    }
}

/// Adds what is read of an object of 300,001 members in falling order.
pub fn say_falling(out: &mut String, alloc: Global) -> Result<(), AllocError> {
    let mut text = String::new(alloc);
    add_falling(&mut text)?;
    let read = Value::from_json(alloc, text.as_bytes());
    letting_go(say_read_large(out, alloc, &read, text.len()), read)
}

#[test]
fn an_object_of_300001_members_in_falling_order_is_read(rt: HostRuntime) -> Result<(), Fail> {
    let line = "its members -> k700000 last none 850000, as long";
    check(rt.alloc(), Question::Falling, line)
}
