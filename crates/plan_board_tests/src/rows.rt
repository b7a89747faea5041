// Rows of tables: templates, and what comes of their deployments.

use crate::running::told_of_row;
use sample_boards::following::compare;
use sample_deployments::signs::add_meaning;
use std::alloc::{AllocError, Global};
use std::test::Fail;

// What an id begins with, where it is in the group `g` of the subscription `s`.
const GROUP: &str = "/subscriptions/s/resourceGroups/g/providers";

fn sign(c: char) -> Option<&'static str> {
    if c == '@' { Some(GROUP) } else { None }
}

fn add_wanted(text: &mut String, line: &str) -> Result<(), AllocError> {
    for c in line.chars() {
        add_meaning(text, sign(c), c)?;
    }
    text.push('\n')
}

// Adds what is wanted of a row.
fn add_all_wanted(text: &mut String, row: &str) -> Result<(), AllocError> {
    for line in row.lines() {
        match line.strip_prefix("> ") {
            Some(line) => add_wanted(text, line)?,
            None => {}
        }
    }
    Ok(())
}

fn wanted(alloc: Global, row: &str) -> Result<String, AllocError> {
    let mut text = String::new(alloc);
    add_all_wanted(&mut text, row)?;
    Ok(text)
}

fn check_row(alloc: Global, row: &str) -> Result<(), Fail> {
    let wanted = wanted(alloc, row)?;
    let told = told_of_row(alloc, row)?;
    compare(told.as_str(), wanted.as_str())
}

/// Compares each row of a table: a template, which may go on over several lines; a line `incremental`, where the mode
/// is not complete; what is held, each after `< `; recorded answers, each after `<- `; what comes of the deployment, in
/// lines after `> `, in which `@` is what ids of the group begin with; and an empty line between rows.
pub fn check(alloc: Global, rows: &str) -> Result<(), Fail> {
    for row in rows.split("\n\n") {
        check_row(alloc, row)?;
    }
    Ok(())
}
