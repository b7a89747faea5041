// Programs whose templates have more parts than templates may have.

use crate::rows::{check_beginning, check_beginning_in};
use std::alloc::{AllocError, Global};
use std::test::Fail;
use template_parts::Form;

/// The line so many times, with the number from 0 on in the place of `#`.
pub fn lines(alloc: Global, line: &str, count: usize) -> Result<String, AllocError> {
    let (before, after) = line.split_once('#').unwrap_or((line, ""));
    let mut text = String::new(alloc);
    for number in 0..count {
        writeln!(text, "{before}{number}{after}")?;
    }
    Ok(text)
}

// Compares how the template of a program begins that has the line so many times.
fn check_lines(alloc: Global, line: &str, count: usize, wanted: &str) -> Result<(), Fail> {
    let program = lines(alloc, line, count)?;
    check_beginning(alloc, program.as_str(), wanted)
}

#[test]
fn outputs_are_counted(rt: HostRuntime) -> Result<(), Fail> {
    check_lines(rt.alloc(), "output o# int = 1", 64, "{")?;
    check_lines(rt.alloc(), "output o# int = 1", 65, "Outputs 65")
}

#[test]
fn parameters_are_counted(rt: HostRuntime) -> Result<(), Fail> {
    check_lines(rt.alloc(), "param p# int = 1", 256, "{")?;
    check_lines(rt.alloc(), "param p# int = 1", 257, "Parameters 257")
}

#[test]
fn variables_are_counted(rt: HostRuntime) -> Result<(), Fail> {
    check_lines(rt.alloc(), "var v# = 1", 512, "{")?;
    check_lines(rt.alloc(), "var v# = 1", 513, "Variables 513")
}

const RESOURCE: &str = "resource r# 'Demo.Lab/things@1' = { name: 'x' }";

#[test]
fn resources_are_counted(rt: HostRuntime) -> Result<(), Fail> {
    check_lines(rt.alloc(), RESOURCE, 800, "{")?;
    check_lines(rt.alloc(), RESOURCE, 801, "Resources 801")
}

// Compares how the template in the second form begins of a program that has the line so many times.
fn check_second_lines(alloc: Global, line: &str, count: usize, wanted: &str) -> Result<(), Fail> {
    let program = lines(alloc, line, count)?;
    check_beginning_in(alloc, Form::Two, program.as_str(), wanted)
}

#[test]
fn resources_are_counted_in_the_second_form(rt: HostRuntime) -> Result<(), Fail> {
    check_second_lines(rt.alloc(), RESOURCE, 800, "{")?;
    check_second_lines(rt.alloc(), RESOURCE, 801, "Resources 801")
}

const EXISTING: &str = "resource e# 'Demo.Lab/things@1' existing = { name: 'x' }";

#[test]
fn existing_resources_are_not_counted(rt: HostRuntime) -> Result<(), Fail> {
    check_second_lines(rt.alloc(), EXISTING, 801, "{")
}
