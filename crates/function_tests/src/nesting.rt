// Values that are as deep as a value may be.

use crate::table::check;
use std::alloc::{AllocError, Global};
use std::test::Fail;

// Brackets of so many arrays, one in another.
fn nested(alloc: Global, depth: usize) -> Result<String, AllocError> {
    let mut text = String::new(alloc);
    for _ in 0..depth {
        text.push('[')?;
    }
    for _ in 0..depth {
        text.push(']')?;
    }
    Ok(text)
}

// Calls with arrays that nest 120 deep, and what they give.
fn deepest_calls(alloc: Global) -> Result<String, AllocError> {
    let deepest = nested(alloc, 120)?;
    format!(in alloc;
        "createArray {deepest} -> {deepest}\n\
         createArray {deepest} | array -> {deepest}\n\
         json [\"{deepest}\"] -> {deepest}"
    )
}

// Calls whose value would nest 121 deep.
fn deeper_calls(alloc: Global) -> Result<String, AllocError> {
    let deepest = nested(alloc, 120)?;
    format!(in alloc; "createArray {deepest} | createArray -> none\njson [\"[{deepest}]\"] -> none")
}

#[test]
fn a_value_nests_120_deep(rt: HostRuntime) -> Result<(), Fail> {
    let table = deepest_calls(rt.alloc())?;
    check(rt.alloc(), table.as_str())
}

#[test]
fn no_value_nests_above_120(rt: HostRuntime) -> Result<(), Fail> {
    let table = deeper_calls(rt.alloc())?;
    check(rt.alloc(), table.as_str())
}
