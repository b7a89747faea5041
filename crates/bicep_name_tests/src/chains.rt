// Long chains of variables, and a long circle.

use crate::mentions::{Mention, answer, compare};
use std::alloc::{AllocError, Global};
use std::test::Fail;

// After a first line, variables each of which mentions the one before it twice; the first has a value.
fn chain(alloc: Global, front: &str, value: &str, count: u32) -> Result<String, AllocError> {
    let mut text = format!(in alloc; "{front}\nvar v0 = {value}\n")?;
    for number in 1..count {
        let before = number.saturating_sub(1);
        write!(text, "var v{number} = '${{v{before}}}${{v{before}}}'\n")?;
    }
    Ok(text)
}

// Fails unless what is said of the symbols begins and ends so.
fn check_ends(
    alloc: Global,
    question: Mention,
    source: &str,
    (begin, end): (&str, &str),
) -> Result<(), Fail> {
    let found = answer(alloc, question, source)?;
    let found = found.as_str();
    if found.starts_with(begin) && found.ends_with(end) {
        return Ok(());
    }
    Err(Fail::new(format_args!("{found}")))
}

// Fails unless this is said of the symbols.
fn check_whole(alloc: Global, question: Mention, source: &str, wanted: &str) -> Result<(), Fail> {
    let found = answer(alloc, question, source)?;
    compare(found.as_str(), wanted)
}

#[test]
fn a_long_chain_of_variables_is_gone_through_once(rt: HostRuntime) -> Result<(), Fail> {
    let alloc = rt.alloc();
    let source = chain(alloc, "module m 'm.bicep' = {}", "m.outputs.out", 500)?;
    let ends = (" v0: m; v1: m; v2: m;", " v498: m; v499: m;");
    check_whole(alloc, Mention::State(None), source.as_str(), "")?;
    check_ends(alloc, Mention::Dependency, source.as_str(), ends)
}

#[test]
fn a_long_chain_is_no_circle(rt: HostRuntime) -> Result<(), Fail> {
    let source = chain(rt.alloc(), "", "'x'", 512)?;
    check_whole(rt.alloc(), Mention::Circle, source.as_str(), "")
}

#[test]
fn a_long_chain_is_a_circle_where_its_first_mentions_its_last(rt: HostRuntime) -> Result<(), Fail> {
    let source = chain(rt.alloc(), "", "v511", 512)?;
    let ends = (" v0 v511 v510 ", "");
    check_ends(rt.alloc(), Mention::Circle, source.as_str(), ends)
}

// Resources each of which mentions the next, and the last the first.
fn ring(alloc: Global, count: u32) -> Result<String, AllocError> {
    let mut text = String::new(alloc);
    for number in 0..count {
        let next = number.saturating_add(1) % count;
        write!(
            text,
            "resource r{number} 'T/x@1' = {{ name: r{next}.name }}\n"
        )?;
    }
    Ok(text)
}

// The names of these resources.
fn ring_names(alloc: Global, count: u32) -> Result<String, AllocError> {
    let mut names = String::new(alloc);
    for number in 0..count {
        write!(names, " r{number}")?;
    }
    Ok(names)
}

#[test]
fn a_ring_of_resources_is_a_circle(rt: HostRuntime) -> Result<(), Fail> {
    let source = ring(rt.alloc(), 800)?;
    let names = ring_names(rt.alloc(), 800)?;
    check_whole(rt.alloc(), Mention::Circle, source.as_str(), names.as_str())
}
