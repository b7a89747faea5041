// The limits of templates.

use crate::rows::compare;
use std::alloc::{AllocError, Global};
use std::test::Fail;

// So many members of this value, each with a comma after it.
fn members(alloc: Global, count: usize, value: &str) -> Result<String, AllocError> {
    let mut members = String::new(alloc);
    for i in 0..count {
        let member = format!(in alloc; "\"k{i}\":{value},")?;
        members.push_str(member.as_str())?;
    }
    Ok(members)
}

// Compares a template that has so many members of this value in one member, and then these.
fn compare_count(
    alloc: Global,
    head: &str,
    count: usize,
    value: &str,
    rest: &str,
    wanted: &str,
) -> Result<(), Fail> {
    let members = members(alloc, count, value)?;
    let text = format!(in alloc; "{head}{members}{rest}")?;
    compare(alloc, text.as_str(), wanted)
}

const OUTPUTS: &str = r#"{¶,"outputs":{"#;

const OUTPUT: &str = r#"{"type":"int","value":1}"#;

#[test]
fn a_template_has_at_most_64_outputs(rt: HostRuntime) -> Result<(), Fail> {
    let last = r#""o":{"type":"int","value":1}}}"#;
    compare_count(rt.alloc(), OUTPUTS, 63, OUTPUT, last, "none")?;
    compare_count(rt.alloc(), OUTPUTS, 64, OUTPUT, last, "Limit Outputs 65")
}

const PARAMETERS: &str = r#"{¶,"parameters":{"#;

#[test]
fn a_template_has_at_most_256_parameters(rt: HostRuntime) -> Result<(), Fail> {
    let last = r#""p":{"type":"int"}}}"#;
    compare_count(
        rt.alloc(),
        PARAMETERS,
        255,
        r#"{"type":"int"}"#,
        last,
        "none",
    )?;
    compare_count(
        rt.alloc(),
        PARAMETERS,
        256,
        r#"{"type":"int"}"#,
        last,
        "Limit Parameters 257",
    )
}

const VARIABLES: &str = r#"{¶,"variables":{"#;

#[test]
fn a_template_has_at_most_512_variables(rt: HostRuntime) -> Result<(), Fail> {
    let last = r#""copy":[{"name":"v","count":1,"input":1}]}}"#;
    compare_count(rt.alloc(), VARIABLES, 511, "1", last, "none")?;
    compare_count(rt.alloc(), VARIABLES, 512, "1", last, "Limit Variables 513")
}

const RESOURCES: &str = r#"{§,"languageVersion":"2.0","resources":{"#;

#[test]
fn a_template_has_at_most_800_resources(rt: HostRuntime) -> Result<(), Fail> {
    let existing = r#""e":{@,"existing":true}}}"#;
    compare_count(rt.alloc(), RESOURCES, 800, "{@}", existing, "none")?;
    compare_count(
        rt.alloc(),
        RESOURCES,
        800,
        "{@}",
        r#""r":{@}}}"#,
        "Limit Resources 801",
    )
}

// So many texts, one after another.
fn repeated(alloc: Global, count: usize, text: &str) -> Result<String, AllocError> {
    let mut repeated = String::new(alloc);
    for _ in 0..count {
        repeated.push_str(text)?;
    }
    Ok(repeated)
}

// Compares a template with a variable whose expression nests so deep.
fn compare_nesting(alloc: Global, count: usize, wanted: &str) -> Result<(), Fail> {
    let front = repeated(alloc, count, "not(")?;
    let back = repeated(alloc, count, ")")?;
    let text = format!(in alloc;
        "{{§,\"resources\":[],\"variables\":{{\"v\":\"[{front}'x'{back}]\"}}}}"
    )?;
    compare(alloc, text.as_str(), wanted)
}

#[test]
fn an_expression_nests_at_most_64(rt: HostRuntime) -> Result<(), Fail> {
    compare_nesting(rt.alloc(), 64, "none")?;
    compare_nesting(rt.alloc(), 65, "Limit Nesting 65")
}
