// Random programs beside what a plain program computes.

use crate::lines::program_lines;
use crate::sources::push_source;
use sample_deployments::planning::planned;
use sample_programs::programs::outcome_text;
use std::alloc::{AllocError, Global};
use std::test::Fail;
use template_parts::{Form, Mode};

fn source(alloc: Global, seed: u32) -> Result<String, AllocError> {
    let mut source = String::new(alloc);
    push_source(&mut source, seed)?;
    Ok(source)
}

// The lines on the plan of the program, whose template is of the form.
fn found(alloc: Global, form: Form, source: &str) -> Result<String, Fail> {
    let template = outcome_text(alloc, source, form)?;
    planned(alloc, template.as_str(), Mode::Incremental, "")
}

fn lines_of<'a>(alloc: Global, text: &'a str) -> Result<Vec<&'a str>, AllocError> {
    let mut lines = Vec::new(alloc);
    for line in text.lines() {
        lines.push(line)?;
    }
    Ok(lines)
}

// The lines in the order of their bytes.
fn sorted<'a>(alloc: Global, text: &'a str) -> Result<Vec<&'a str>, AllocError> {
    let mut lines = lines_of(alloc, text)?;
    lines.sort()?;
    Ok(lines)
}

// The place of a line among those from a place on.
fn place(found: &[&str], from: usize, line: &str) -> Option<usize> {
    for place in from..found.len() {
        if found.get(place).copied() == Some(line) {
            return Some(place);
        }
    }
    None
}

// The first line that is not among the found ones. Both lists are in the order of their bytes.
fn missing<'a>(found: &[&str], wanted: &[&'a str]) -> Option<&'a str> {
    let mut from = 0;
    for line in wanted {
        match place(found, from, line) {
            Some(place) => from = place,
            None => return Some(line),
        }
    }
    None
}

// The first line of what is wanted, in the order of bytes, that is not among the found ones.
fn missing_line<'a>(
    alloc: Global,
    found: &str,
    wanted: &'a str,
) -> Result<Option<&'a str>, AllocError> {
    let found = sorted(alloc, found)?;
    let wanted = sorted(alloc, wanted)?;
    Ok(missing(found.as_slice(), wanted.as_slice()))
}

fn compare(alloc: Global, found: &str, wanted: &str, source: &str) -> Result<(), Fail> {
    match missing_line(alloc, found, wanted)? {
        Some(line) => Err(Fail::new(format_args!("{line} is not among\n{found}of\n{source}"))),
        None => Ok(()),
    }
}

fn check(alloc: Global, form: Form, seed: u32) -> Result<(), Fail> {
    let source = source(alloc, seed)?;
    let found = found(alloc, form, source.as_str())?;
    let wanted = program_lines(alloc, form, seed)?;
    compare(alloc, found.as_str(), wanted.as_str(), source.as_str())
}

// Checks the programs of 30 seeds, whose templates are of the form.
fn check_all(alloc: Global, form: Form, first: u32) -> Result<(), Fail> {
    for number in 0..30 {
        check(alloc, form, first.saturating_add(number))?;
    }
    Ok(())
}

#[test]
fn programs_0_to_29(rt: HostRuntime) -> Result<(), Fail> {
    check_all(rt.alloc(), Form::One, 0)
}

#[test]
fn programs_30_to_59(rt: HostRuntime) -> Result<(), Fail> {
    check_all(rt.alloc(), Form::One, 30)
}

#[test]
fn programs_60_to_89(rt: HostRuntime) -> Result<(), Fail> {
    check_all(rt.alloc(), Form::One, 60)
}

#[test]
fn programs_90_to_119(rt: HostRuntime) -> Result<(), Fail> {
    check_all(rt.alloc(), Form::One, 90)
}

#[test]
fn programs_120_to_149(rt: HostRuntime) -> Result<(), Fail> {
    check_all(rt.alloc(), Form::One, 120)
}

#[test]
fn programs_150_to_179(rt: HostRuntime) -> Result<(), Fail> {
    check_all(rt.alloc(), Form::One, 150)
}

#[test]
fn programs_180_to_209(rt: HostRuntime) -> Result<(), Fail> {
    check_all(rt.alloc(), Form::One, 180)
}

#[test]
fn programs_210_to_239(rt: HostRuntime) -> Result<(), Fail> {
    check_all(rt.alloc(), Form::One, 210)
}

#[test]
fn programs_240_to_269(rt: HostRuntime) -> Result<(), Fail> {
    check_all(rt.alloc(), Form::One, 240)
}

#[test]
fn programs_270_to_299(rt: HostRuntime) -> Result<(), Fail> {
    check_all(rt.alloc(), Form::One, 270)
}

#[test]
fn programs_0_to_29_in_the_second_form(rt: HostRuntime) -> Result<(), Fail> {
    check_all(rt.alloc(), Form::Two, 0)
}

#[test]
fn programs_30_to_59_in_the_second_form(rt: HostRuntime) -> Result<(), Fail> {
    check_all(rt.alloc(), Form::Two, 30)
}

#[test]
fn programs_60_to_89_in_the_second_form(rt: HostRuntime) -> Result<(), Fail> {
    check_all(rt.alloc(), Form::Two, 60)
}

#[test]
fn programs_90_to_119_in_the_second_form(rt: HostRuntime) -> Result<(), Fail> {
    check_all(rt.alloc(), Form::Two, 90)
}

#[test]
fn programs_120_to_149_in_the_second_form(rt: HostRuntime) -> Result<(), Fail> {
    check_all(rt.alloc(), Form::Two, 120)
}

#[test]
fn programs_150_to_179_in_the_second_form(rt: HostRuntime) -> Result<(), Fail> {
    check_all(rt.alloc(), Form::Two, 150)
}

#[test]
fn programs_180_to_209_in_the_second_form(rt: HostRuntime) -> Result<(), Fail> {
    check_all(rt.alloc(), Form::Two, 180)
}

#[test]
fn programs_210_to_239_in_the_second_form(rt: HostRuntime) -> Result<(), Fail> {
    check_all(rt.alloc(), Form::Two, 210)
}

#[test]
fn programs_240_to_269_in_the_second_form(rt: HostRuntime) -> Result<(), Fail> {
    check_all(rt.alloc(), Form::Two, 240)
}

#[test]
fn programs_270_to_299_in_the_second_form(rt: HostRuntime) -> Result<(), Fail> {
    check_all(rt.alloc(), Form::Two, 270)
}
