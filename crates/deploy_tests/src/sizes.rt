// Sources at and beyond the limits.

use crate::rows::{NONE, check_bytes, check_run};
use std::alloc::{AllocError, Global};
use std::sync::Wait;
use std::test::Fail;
use std::thread::Threads;

const WORDS: &str = "deploy main.bicep --group g --name d";

fn check_text<R: Threads + Wait + Sync>(
    rt: &R,
    alloc: Global,
    files: Result<String, AllocError>,
    wanted: &str,
) -> Result<(), Fail> {
    let files = files?;
    check_run(rt, alloc, (WORDS, files.as_str(), wanted), NONE)
}

// A file with an output and a comment, of so many bytes.
fn source_of(alloc: Global, bytes: usize) -> Result<String, AllocError> {
    let mut text = String::from_str(alloc, "output o int = 1\n//")?;
    for _byte in text.len()..bytes {
        text.push('x')?;
    }
    Ok(text)
}

#[test]
fn a_source_has_at_most_4194304_bytes(rt: HostRuntime) -> Result<(), Fail> {
    let most = source_of(rt.alloc(), 4_194_304);
    check_text(&rt, rt.alloc(), most, "0 Succeeded d\no=1")?;
    let more = source_of(rt.alloc(), 4_194_305);
    check_text(&rt, rt.alloc(), more, "1 error TooLarge: main.bicep")
}

fn add_modules(text: &mut String, count: u32) -> Result<(), AllocError> {
    for i in 0..count {
        write!(text, "module m{i} 'm{i}.bicep' = {{\n}}\n")?;
    }
    Ok(())
}

fn add_files(text: &mut String, count: u32) -> Result<(), AllocError> {
    for i in 0..count {
        write!(text, "\n--- m{i}.bicep")?;
    }
    Ok(())
}

// A main file with so many modules, each of a file of its own.
fn program_of(alloc: Global, modules: u32) -> Result<String, AllocError> {
    let mut text = String::new(alloc);
    add_modules(&mut text, modules)?;
    add_files(&mut text, modules)?;
    Ok(text)
}

#[test]
fn a_program_has_at_most_65_files(rt: HostRuntime) -> Result<(), Fail> {
    let most = program_of(rt.alloc(), 64);
    check_text(&rt, rt.alloc(), most, "0 Succeeded d")?;
    let more = program_of(rt.alloc(), 65);
    check_text(&rt, rt.alloc(), more, "1 error TooManyFiles: main.bicep")
}

// A file with so many outputs.
fn outputs_of(alloc: Global, count: u32) -> Result<String, AllocError> {
    let mut text = String::new(alloc);
    for i in 0..count {
        writeln!(text, "output o{i} int = 1")?;
    }
    Ok(text)
}

#[test]
fn a_template_has_at_most_64_outputs(rt: HostRuntime) -> Result<(), Fail> {
    let more = outputs_of(rt.alloc(), 65);
    check_text(&rt, rt.alloc(), more, "1 error Limit: main.bicep")
}

// Adds so many variables, each with the one before it in a text.
fn add_texts(text: &mut String, count: u32) -> Result<(), AllocError> {
    for i in 0..count {
        let next = i + 1;
        writeln!(text, "var v{next} = '${{v{i}}}x'")?;
    }
    Ok(())
}

// A file with so many variables after the first, which reads a state, and an output of the last.
fn texts_of(alloc: Global, count: u32) -> Result<String, AllocError> {
    let mut text = String::from_str(alloc, READS)?;
    add_texts(&mut text, count)?;
    writeln!(text, "output o string = v{count}")?;
    Ok(text)
}

const READS: &str = concat!(
    "resource r 'Demo.Lab/things@1' existing = { name: 'r' }\n",
    "var v0 = r.properties.x\n",
);

#[test]
fn a_template_expression_nests_at_most_64(rt: HostRuntime) -> Result<(), Fail> {
    let deep = texts_of(rt.alloc(), 70);
    check_text(&rt, rt.alloc(), deep, "1 error TooDeep: main.bicep")
}

#[test]
fn bytes_that_are_no_text(rt: HostRuntime) -> Result<(), Fail> {
    let wanted = "1 error NotText: main.bicep";
    check_bytes(&rt, rt.alloc(), &[47, 47, 255], wanted)
}
