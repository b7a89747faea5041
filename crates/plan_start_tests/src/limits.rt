// How many instances a deployment may have, and long chains.

use crate::rows::{add_line, check_fact, known_of};
use std::alloc::Global;
use std::rt::HostRuntime;
use std::test::Fail;

// A template with four nested deployments by a loop, each with 499 resources by a loop, and with further resources.
fn many(alloc: Global, further: &str) -> Result<String, Fail> {
    let mut text = String::new(alloc);
    add_line(
        &mut text,
        r#"{§,"resources":[{¶,"name":"[format('m{0}', copyIndex())]",
        "copy":{"name":"l","count":4},"properties":{«,"template":{§,"resources":[{¤,
        "name":"[format('x{0}', copyIndex())]","copy":{"name":"l","count":499}}]}}}"#,
    )?;
    add_line(&mut text, further)?;
    text.push_str("]}")?;
    Ok(text)
}

// Fails where the fact is not known of the template that the text states.
fn check_one(alloc: Global, text: &str, fact: &str) -> Result<(), Fail> {
    let told = known_of(alloc, text)?;
    check_fact(told.as_str(), fact)
}

#[test]
fn a_deployment_has_at_most_2000_instances(rt: HostRuntime) -> Result<(), Fail> {
    let text = many(rt.alloc(), "")?;
    check_one(rt.alloc(), text.as_str(), "instances 2000")
}

#[test]
fn instances_that_are_left_away_count(rt: HostRuntime) -> Result<(), Fail> {
    let text = many(rt.alloc(), r#",{¤,"name":"y","condition":false}"#)?;
    check_one(rt.alloc(), text.as_str(), "limit Instances 2001")
}

#[test]
fn a_template_has_at_most_800_instances(rt: HostRuntime) -> Result<(), Fail> {
    let mut text = String::new(rt.alloc());
    add_line(
        &mut text,
        r#"{§,"resources":[{¤,"name":"[format('x{0}', copyIndex())]",
        "copy":{"name":"l","count":500}},{¤,"name":"[format('y{0}', copyIndex())]",
        "copy":{"name":"k","count":301}}]}"#,
    )?;
    check_one(rt.alloc(), text.as_str(), "limit Resources 801")
}

// A template with 512 variables, each one more than the next.
fn chain(alloc: Global) -> Result<String, Fail> {
    let mut text = String::new(alloc);
    add_line(&mut text, r#"{§,"resources":[],"variables":{"#)?;
    for at in 0..511u32 {
        write!(text, r#""v{at}":"[add(variables('v{}'), 1)]","#, at + 1)?;
    }
    text.push_str(r#""v511":0}}"#)?;
    Ok(text)
}

#[test]
fn variables_in_a_chain(rt: HostRuntime) -> Result<(), Fail> {
    let text = chain(rt.alloc())?;
    check_one(rt.alloc(), text.as_str(), "variable / v0 = 511")
}
