// How tasks and needs are asked for.

use sample_deployments::facts::check_facts;
use sample_deployments::planning::planned;
use sample_deployments::rows::{mode_of, template_of};
use std::alloc::Global;
use std::test::Fail;

// What is said of the plan of a row.
fn told_of_row(alloc: Global, row: &str) -> Result<String, Fail> {
    let text = template_of(alloc, row)?;
    planned(alloc, text.as_str(), mode_of(row), row)
}

fn check_row(alloc: Global, row: &str) -> Result<(), Fail> {
    let told = told_of_row(alloc, row)?;
    check_facts(told.as_str(), row)
}

/// Compares each row of a table: a template, which may go on over several lines; a line `incremental`, where the mode
/// is not complete; ids each after `< `; facts each after `> `; and an empty line between rows.
pub fn check(alloc: Global, rows: &str) -> Result<(), Fail> {
    for row in rows.split("\n\n") {
        check_row(alloc, row)?;
    }
    Ok(())
}

/// Compares each row of several tables.
pub fn check_all(alloc: Global, tables: &[&str]) -> Result<(), Fail> {
    for rows in tables {
        check(alloc, rows)?;
    }
    Ok(())
}
