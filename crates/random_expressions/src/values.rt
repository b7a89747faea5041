//! Values of Bicep expressions by the values of their parts. A value is compact JSON, and the word `none` where there
//! is no value.

use crate::random::Made;
use std::alloc::{AllocError, Global};

/// A value that is there in letters.
pub fn copied(alloc: Global, value: &str) -> Result<String, AllocError> {
    String::from_str(alloc, value)
}

/// The characters between the first and the last of a text or a list.
pub fn inner(value: &str) -> &str {
    match value.strip_prefix(['"', '[']) {
        Some(rest) => rest.strip_suffix(['"', ']']).unwrap_or(rest),
        None => value,
    }
}

fn truth(alloc: Global, is: bool) -> Result<String, AllocError> {
    copied(alloc, if is { "true" } else { "false" })
}

fn printed(alloc: Global, found: Option<i64>) -> Result<String, AllocError> {
    match found {
        Some(number) => format!(in alloc; "{number}"),
        None => copied(alloc, "none"),
    }
}

fn calculated(name: &str, a: i64, b: i64) -> Option<i64> {
    match name {
        "add" => a.checked_add(b),
        "sub" => a.checked_sub(b),
        "mul" => a.checked_mul(b),
        "div" => a.checked_div(b),
        "mod" => a.checked_rem(b),
        _ => None,
    }
}

fn compared(name: &str, a: i64, b: i64) -> Option<bool> {
    match name {
        "less" => Some(a < b),
        "at_most" => Some(a <= b),
        "greater" => Some(a > b),
        "at_least" => Some(a >= b),
        _ => None,
    }
}

// Of two numbers.
fn of_numbers(alloc: Global, name: &str, a: i64, b: i64) -> Result<String, AllocError> {
    match compared(name, a, b) {
        Some(is) => truth(alloc, is),
        None => printed(alloc, calculated(name, a, b)),
    }
}

// The item of a list at a place.
fn item<'a>(list: &'a str, place: i64) -> &'a str {
    match usize::try_from(place) {
        Ok(place) => inner(list).split(',').nth(place).unwrap_or("none"),
        Err(_) => "none",
    }
}

// How many characters a text has, and how many items a list that is not empty.
fn length(value: &str) -> Option<i64> {
    let count = if value.starts_with('[') {
        value.split(',').count()
    } else {
        inner(value).chars().count()
    };
    i64::try_from(count).ok()
}

fn negative(value: &str) -> Option<i64> {
    match value.parse::<i64>() {
        Ok(number) => 0i64.checked_sub(number),
        Err(_) => None,
    }
}

fn lowered(alloc: Global, text: &str) -> Result<String, AllocError> {
    copied(alloc, text)?.to_ascii_lowercase(alloc)
}

// A number that one part gives.
fn number_of(name: &str, a: &str) -> Option<i64> {
    match name {
        "negative" => negative(a),
        "length" => length(a),
        _ => None,
    }
}

// Of one part.
fn of_one(alloc: Global, name: &str, a: &str) -> Result<String, AllocError> {
    match name {
        "front" => copied(alloc, item(a, 0)),
        "lower" => lowered(alloc, a),
        "not" => truth(alloc, a == "false"),
        "first" => copied(alloc, a),
        _ => printed(alloc, number_of(name, a)),
    }
}

// Whether two values are equal, or are so but for the case of letters.
fn equality(name: &str, a: &str, b: &str) -> Option<bool> {
    match name {
        "equal" => Some(a == b),
        "differ" => Some(a != b),
        "alike" => Some(a.eq_ignore_ascii_case(b)),
        "unlike" => Some(!a.eq_ignore_ascii_case(b)),
        _ => None,
    }
}

// One of two parts.
fn selected<'a>(name: &str, a: &'a str, b: &'a str) -> Option<&'a str> {
    match name {
        "first" => Some(a),
        "second" => Some(b),
        "item" => match b.parse::<i64>() {
            Ok(place) => Some(item(a, place)),
            Err(_) => Some("none"),
        },
        _ => None,
    }
}

fn braces(alloc: Global, a: &str, b: &str) -> Result<String, AllocError> {
    format!(in alloc; "\"{{{a}}}|{b}\"")
}

fn side(alloc: Global, a: &str, b: &str) -> Result<String, AllocError> {
    format!(in alloc; "\"{a}{b}x\"")
}

fn concat(alloc: Global, a: &str, b: &str) -> Result<String, AllocError> {
    format!(in alloc; "\"{a}{b}\"")
}

fn pair(alloc: Global, a: &str, b: &str) -> Result<String, AllocError> {
    format!(in alloc; "[{a},{b}]")
}

fn longer(alloc: Global, a: &str, b: &str, rest: &str) -> Result<String, AllocError> {
    format!(in alloc; "[{a},{b},{rest}]")
}

// Of two parts that are numbers.
fn numeric(alloc: Global, name: &str, a: &str, b: &str) -> Result<String, AllocError> {
    match (a.parse::<i64>(), b.parse::<i64>()) {
        (Ok(a), Ok(b)) => of_numbers(alloc, name, a, b),
        _ => copied(alloc, "none"),
    }
}

// A text or a list of two parts, or what two numbers give.
fn composed(alloc: Global, name: &str, a: &str, b: &str) -> Result<String, AllocError> {
    match name {
        "braces" => braces(alloc, inner(a), inner(b)),
        "side" => side(alloc, inner(a), inner(b)),
        "concat" => concat(alloc, inner(a), inner(b)),
        "pair" => pair(alloc, a, b),
        _ => numeric(alloc, name, a, b),
    }
}

// Of two parts.
fn of_two(alloc: Global, name: &str, a: &str, b: &str) -> Result<String, AllocError> {
    if let Some(is) = equality(name, a, b) {
        return truth(alloc, is);
    }
    match selected(name, a, b) {
        Some(value) => copied(alloc, value),
        None => composed(alloc, name, a, b),
    }
}

fn part<'a>(parts: &'a [Made], place: usize) -> &'a str {
    match parts.get(place) {
        Some(part) => part.value.as_str(),
        None => "none",
    }
}

fn all_have_values(parts: &[Made]) -> bool {
    for part in parts {
        if part.value.as_str() == "none" {
            return false;
        }
    }
    true
}

// The value of an expression that looks at all its parts.
fn strict(alloc: Global, name: &str, parts: &[Made]) -> Result<String, AllocError> {
    if !all_have_values(parts) {
        return copied(alloc, "none");
    }
    let (a, b) = (part(parts, 0), part(parts, 1));
    match parts.len() {
        1 => of_one(alloc, name, a),
        2 => of_two(alloc, name, a, b),
        _ => longer(alloc, a, b, inner(part(parts, 2))),
    }
}

fn chosen<'a>(parts: &'a [Made]) -> &'a str {
    match part(parts, 0) {
        "none" => "none",
        "true" => part(parts, 1),
        _ => part(parts, 2),
    }
}

// The first part where it is this or has no value, and else the second.
fn junction<'a>(parts: &'a [Made], end: &str) -> &'a str {
    let first = part(parts, 0);
    if first == end || first == "none" {
        first
    } else {
        part(parts, 1)
    }
}

// The value of an expression that does not look at all its parts.
fn lazy<'a>(name: &str, parts: &'a [Made]) -> Option<&'a str> {
    match name {
        "if" => Some(chosen(parts)),
        "and" => Some(junction(parts, "false")),
        "or" => Some(junction(parts, "true")),
        "either" => Some(part(parts, 0)),
        _ => None,
    }
}

/// The value of an expression of parts, by the word for what it is of them.
pub fn joined(alloc: Global, name: &str, parts: &[Made]) -> Result<String, AllocError> {
    match lazy(name, parts) {
        Some(value) => copied(alloc, value),
        None => strict(alloc, name, parts),
    }
}
