// Looking for members, and comparing texts whatever the case of ASCII letters.

use crate::answers::Question;
use crate::table::{check, letting_go, say_truth, two};
use crate::written::say_maybe;
use arm_value::{JsonFault, Value, folded_eq};
use std::alloc::{AllocError, Global};
use std::test::Fail;

fn say_in(
    out: &mut String,
    alloc: Global,
    read: &Result<Value, JsonFault>,
    name: &str,
) -> Result<(), AllocError> {
    match read {
        Ok(value) => say_maybe(out, alloc, value.look(name)),
        Err(_) => out.push_str("no value"),
    }
}

/// Adds the member of JSON without blanks by the name after it, or `none`.
pub fn say_member(out: &mut String, alloc: Global, asked: &str) -> Result<(), AllocError> {
    let (json, name) = two(asked);
    let read = Value::from_json(alloc, json.as_bytes());
    letting_go(say_in(out, alloc, &read, name), read)
}

const MEMBERS: &str = r#"{"sku":2,"Sku":1,"Ä":3} Sku -> 1
{"sku":2,"Sku":1,"Ä":3} sku -> 2
{"sku":2,"Sku":1,"Ä":3} SKU -> 1
{"sku":2,"Sku":1,"Ä":3} Ä -> 3
{"sku":2,"Sku":1,"Ä":3} ä -> none
{"sku":2,"Sku":1,"Ä":3} x -> none
7 x -> none"#;

#[test]
fn members_are_found_by_exact_and_then_by_folded_name(rt: HostRuntime) -> Result<(), Fail> {
    check(rt.alloc(), Question::Member, MEMBERS)
}

/// Adds whether the words are one whatever the case of ASCII letters.
pub fn say_folded(out: &mut String, asked: &str) -> Result<(), AllocError> {
    let (word, other) = two(asked);
    say_truth(out, folded_eq(word, other))
}

const FOLDED: &str = "aZ[ä Az[ä -> true
@ ` -> false
Ä ä -> false";

#[test]
fn letters_from_a_to_z_alone_are_folded(rt: HostRuntime) -> Result<(), Fail> {
    check(rt.alloc(), Question::Folded, FOLDED)
}
