// Random templates: the tasks are those of a plain program.

use crate::rows::{add_line, has_same_tasks, known_of};
use std::alloc::{AllocError, Global};
use std::rt::HostRuntime;
use std::test::Fail;

// The next random number below `below`, which is at most 65,536.
fn pick(seed: &mut u32, below: u32) -> u32 {
    *seed = seed.wrapping_mul(1_103_515_245).wrapping_add(12_345);
    (*seed >> 16) % below.max(1)
}

// Adds the loop of a resource.
fn push_loop(out: &mut String, seed: &mut u32, number: u32) -> Result<(), AllocError> {
    write!(out, r#","copy":{{"name":"l{number}","count":"#)?;
    match pick(seed, 2) {
        0 => write!(out, "{}}}", pick(seed, 4)),
        _ => out.push_str(r#""[variables('n')]"}"#),
    }
}

// Adds the condition of a resource, or none.
fn push_condition(out: &mut String, seed: &mut u32, looped: bool) -> Result<(), AllocError> {
    match pick(seed, 6) {
        0 => out.push_str(r#","condition":false"#),
        1 => out.push_str(r#","condition":"[greater(variables('n'), 1)]""#),
        2 if looped => out.push_str(r#","condition":"[equals(mod(copyIndex(), 2), 1)]""#),
        _ => Ok(()),
    }
}

// Adds what declares a resource.
fn push_declared(out: &mut String, seed: &mut u32, number: u32) -> Result<bool, AllocError> {
    let looped = pick(seed, 3) == 0;
    if looped {
        write!(out, r#","name":"[format('r{number}x{{0}}', copyIndex())]""#)?;
        push_loop(out, seed, number)?;
    } else {
        write!(out, r#","name":"r{number}""#)?;
    }
    push_condition(out, seed, looped)?;
    Ok(looped)
}

// Adds a child or two.
fn push_children(out: &mut String, seed: &mut u32) -> Result<(), AllocError> {
    out.push_str(r#","resources":[{"type":"d","apiVersion":"1","name":"c""#)?;
    push_condition(out, seed, false)?;
    match pick(seed, 2) {
        0 => out.push_str("}]"),
        _ => out.push_str(r#"},{"type":"e","apiVersion":"1","name":"c"}]"#),
    }
}

// Adds a resource up to the template of its deployment, and returns whether it has one.
fn push_resource(
    out: &mut String,
    seed: &mut u32,
    depth: u32,
    number: u32,
) -> Result<bool, AllocError> {
    if number > 0 {
        out.push(',')?;
    }
    let nested = depth > 0 && pick(seed, 3) > 0;
    add_line(out, if nested { "{¶" } else { "{¤" })?;
    let looped = push_declared(out, seed, number)?;
    if nested {
        let scope = if pick(seed, 2) == 0 { "«" } else { "»" };
        out.push_str(r#","properties":{"#)?;
        add_line(out, scope)?;
        out.push_str(r#","template":"#)?;
    } else if !looped && pick(seed, 3) == 0 {
        push_children(out, seed)?;
    }
    Ok(nested)
}

// Adds a template in which templates stand in one another so deep.
fn push_template(out: &mut String, seed: &mut u32, depth: u32) -> Result<(), AllocError> {
    add_line(out, r#"{§,"variables":{"n":"#)?;
    write!(out, "{}}},", pick(seed, 4))?;
    out.push_str(r#""resources":["#)?;
    for number in 0..pick(seed, 4) {
        let nested = push_resource(out, seed, depth, number)?;
        if nested && depth > 0 {
            push_template(out, seed, depth - 1)?;
            out.push('}')?;
        }
        out.push('}')?;
    }
    out.push_str("]}")
}

// Compares the tasks of a random template.
fn check_random(alloc: Global, mut seed: u32) -> Result<(), Fail> {
    let mut text = String::new(alloc);
    push_template(&mut text, &mut seed, 2)?;
    let told = known_of(alloc, text.as_str())?;
    if has_same_tasks(told.as_str()) {
        return Ok(());
    }
    Err(Fail::new(format_args!("{text} gives other tasks:\n{told}")))
}

#[test]
fn tasks_of_random_templates(rt: HostRuntime) -> Result<(), Fail> {
    for seed in 0..100 {
        check_random(rt.alloc(), seed)?;
    }
    Ok(())
}

#[test]
fn tasks_of_more_random_templates(rt: HostRuntime) -> Result<(), Fail> {
    for seed in 100..200 {
        check_random(rt.alloc(), seed)?;
    }
    Ok(())
}
