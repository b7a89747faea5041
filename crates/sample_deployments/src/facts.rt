//! Facts that are looked for among lines.

use std::test::Fail;

/// Whether a line is among the lines.
pub fn has_line(told: &str, wanted: &str) -> bool {
    for line in told.lines() {
        if line == wanted {
            return true;
        }
    }
    false
}

// Whether one of the lines that are wanted, with ` or ` between each two, is among the lines.
fn has_either(told: &str, wanted: &str) -> bool {
    for line in wanted.split(" or ") {
        if has_line(told, line) {
            return true;
        }
    }
    false
}

// Fails where the fact is not among the lines. A fact that begins with `no` is that there is no such line.
fn check_fact(told: &str, fact: &str) -> Result<(), Fail> {
    let holds = match fact.strip_prefix("no ") {
        Some(line) => !has_line(told, line),
        None => has_either(told, fact),
    };
    if holds {
        return Ok(());
    }
    Err(Fail::new(format_args!("{fact} is not among\n{told}")))
}

/// Looks for each fact of a row, which is a line after `> `. A fact that begins with `no` is that there is no such line.
///
/// # Errors
///
/// A fact is not among the lines.
pub fn check_facts(told: &str, row: &str) -> Result<(), Fail> {
    for line in row.lines() {
        match line.strip_prefix("> ") {
            Some(fact) => check_fact(told, fact)?,
            None => {}
        }
    }
    Ok(())
}
