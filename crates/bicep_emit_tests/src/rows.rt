// Tables of programs and their templates.

use sample_programs::programs::{compare, outcome_text};
use std::alloc::{AllocError, Global};
use std::test::Fail;
use template_parts::Form;

// The first two members of each template.
const HEAD: &str = concat!(
    r#""$schema":"https://schema.management.azure.com/schemas/2019-04-01/deploymentTemplate.json#","#,
    r#""contentVersion":"1.0.0.0""#,
);

// Adds the first three members of a template in the second form.
fn add_second(text: &mut String) -> Result<(), AllocError> {
    text.push_str(HEAD)?;
    text.push_str(r#","languageVersion":"2.0""#)
}

// Adds a character of what is wanted, or what it is in the place of.
fn add_sign(text: &mut String, c: char) -> Result<(), AllocError> {
    match c {
        '§' => text.push_str(HEAD),
        '¶' => add_second(text),
        _ => text.push(c),
    }
}

fn add_line(text: &mut String, line: &str) -> Result<(), AllocError> {
    for c in line.chars() {
        add_sign(text, c)?;
    }
    Ok(())
}

// What is wanted: the lines of a template, one after another.
fn joined(alloc: Global, lines: &str) -> Result<String, AllocError> {
    let mut text = String::new(alloc);
    for line in lines.lines() {
        add_line(&mut text, line)?;
    }
    Ok(text)
}

/// Compares what a program becomes in the form with a template, which may go on over several lines. A `§` is in the
/// place of the first two members of a template, and a `¶` in that of the first three in the second form.
pub fn check_program(alloc: Global, form: Form, program: &str, lines: &str) -> Result<(), Fail> {
    let wanted = joined(alloc, lines)?;
    let found = outcome_text(alloc, program, form)?;
    compare(found.as_str(), wanted.as_str())
}

/// Compares how what a program becomes in the first form begins.
pub fn check_beginning(alloc: Global, program: &str, wanted: &str) -> Result<(), Fail> {
    check_beginning_in(alloc, Form::One, program, wanted)
}

/// Compares how what a program becomes in the form begins.
pub fn check_beginning_in(
    alloc: Global,
    form: Form,
    program: &str,
    wanted: &str,
) -> Result<(), Fail> {
    let found = outcome_text(alloc, program, form)?;
    let text = found.as_str();
    compare(text.get(0..wanted.len()).unwrap_or(text), wanted)
}

// Compares each row of a table with its template in the form. An empty line divides two rows.
fn check_each(alloc: Global, form: Form, rows: &str) -> Result<(), Fail> {
    for row in rows.split("\n\n") {
        let (program, lines) = row.split_once("=> ").unwrap_or((row, ""));
        check_program(alloc, form, program, lines)?;
    }
    Ok(())
}

/// Compares each row of a table with its template in the first form.
pub fn check_rows(alloc: Global, rows: &str) -> Result<(), Fail> {
    check_each(alloc, Form::One, rows)
}

/// Compares each row of a table with its template in the second form.
pub fn check_second(alloc: Global, rows: &str) -> Result<(), Fail> {
    check_each(alloc, Form::Two, rows)
}
