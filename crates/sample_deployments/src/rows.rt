//! Rows of tables: a template, what is held, and what is expected.

use crate::facts::has_line;
use crate::signs::add_line;
use std::alloc::{AllocError, Global};
use template_parts::Mode;

// Whether a line of a row is of its template.
fn is_asked(line: &str) -> bool {
    !line.starts_with("<") && !line.starts_with(">") && line != "incremental"
}

fn add_asked(text: &mut String, row: &str) -> Result<(), AllocError> {
    for line in row.lines() {
        if is_asked(line) {
            add_line(text, line)?;
        }
    }
    Ok(())
}

/// The text of the template of a row: each line but `incremental` and those that begin with `<` or `>`.
///
/// # Errors
///
/// There is no memory.
pub fn template_of(alloc: Global, row: &str) -> Result<String, AllocError> {
    let mut text = String::new(alloc);
    add_asked(&mut text, row)?;
    Ok(text)
}

/// The mode of a row: incremental where it has the line `incremental`, else complete.
pub fn mode_of(row: &str) -> Mode {
    if has_line(row, "incremental") {
        Mode::Incremental
    } else {
        Mode::Complete
    }
}
