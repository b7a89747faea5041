// How functions are found by their names, and how many arguments they take.

use crate::table::{check, compare};
use arm_functions::{Arity, Row, arity};
use std::alloc::{AllocError, Global};
use std::test::Fail;

const NO_FUNCTIONS: &str = r#"nope [] -> no function of this name
 [] -> no function of this name
parameters ["a"] -> no function of this name
if [true,1,2] -> no function of this name"#;

#[test]
fn other_names_are_no_functions(rt: HostRuntime) -> Result<(), Fail> {
    check(rt.alloc(), NO_FUNCTIONS)
}

const WRONG_COUNTS: &str = r#"add [1] -> wrong number of arguments
add [1,2,3] -> wrong number of arguments
min [] -> wrong number of arguments
max [] -> wrong number of arguments
equals [1] -> wrong number of arguments
true [1] -> wrong number of arguments
false [1] -> wrong number of arguments
null [1] -> wrong number of arguments
concat [] -> wrong number of arguments
union [] -> wrong number of arguments
tryGet [{"a":1}] -> wrong number of arguments
length ["a","b"] -> wrong number of arguments
toLower [] -> wrong number of arguments
substring ["abc"] -> wrong number of arguments
replace ["abc","b"] -> wrong number of arguments
string [1,2] -> wrong number of arguments
padLeft ["abc"] -> wrong number of arguments
format [] -> wrong number of arguments
json ["1","2"] -> wrong number of arguments
base64 [] -> wrong number of arguments
base64 ["a","b"] -> wrong number of arguments
base64ToString [] -> wrong number of arguments
base64ToString ["Zg==","Zg=="] -> wrong number of arguments
uniqueString [] -> wrong number of arguments
guid [] -> wrong number of arguments
padLeft ["a",1,"b",2] -> wrong number of arguments"#;

#[test]
fn wrong_numbers_of_arguments_are_refused(rt: HostRuntime) -> Result<(), Fail> {
    check(rt.alloc(), WRONG_COUNTS)
}

// The least and the most number of arguments, or that there is no such function.
fn counts(alloc: Global, name: &str) -> Result<String, AllocError> {
    match arity(name) {
        Ok(Arity { least, most: None }) => format!(in alloc; "{least} or more"),
        Ok(
            Arity {
                least,
                most: Some(most),
            },
        ) => format!(in alloc; "{least} to {most}"),
        Err(fault) => format!(in alloc; "{fault}"),
    }
}

const COUNTS: &str = r#"div -> 2 to 2
PADLEFT -> 2 to 3
createObject -> 0 or more
tryGet -> 2 or more
if -> 3 to 3
And -> 2 or more
copyIndex -> 0 to 2
reference -> 1 to 3
resourceGroup -> 0 to 0
 -> no function of this name
nope -> no function of this name
div  -> no function of this name
div2 -> no function of this name
di -> no function of this name"#;

fn check_counts(alloc: Global, line: &str) -> Result<(), Fail> {
    let (name, wanted) = line.split_once(" -> ").unwrap_or((line, ""));
    let found = counts(alloc, name)?;
    compare(line, found.as_str(), wanted)
}

#[test]
fn each_name_has_its_counts_of_arguments(rt: HostRuntime) -> Result<(), Fail> {
    for line in COUNTS.lines() {
        check_counts(rt.alloc(), line)?;
    }
    Ok(())
}

// What the row of a name says.
fn row_shown(alloc: Global, name: &str) -> Result<String, AllocError> {
    match Row::of(name) {
        Some(row) if row.is_plain() => format!(in alloc; "{}, plain", row.name),
        Some(row) => format!(in alloc; "{}, evaluated", row.name),
        None => String::from_str(alloc, "none"),
    }
}

const ROWS: &str = r#"add -> add, plain
SUBSTRING -> substring, plain
base64tostring -> base64ToString, plain
If -> if, evaluated
RESOURCEID -> resourceId, evaluated
nope -> none
 -> none"#;

fn check_row(alloc: Global, line: &str) -> Result<(), Fail> {
    let (name, wanted) = line.split_once(" -> ").unwrap_or((line, ""));
    let found = row_shown(alloc, name)?;
    compare(line, found.as_str(), wanted)
}

#[test]
fn each_name_has_its_row(rt: HostRuntime) -> Result<(), Fail> {
    for line in ROWS.lines() {
        check_row(rt.alloc(), line)?;
    }
    Ok(())
}

#[test]
fn a_row_admits_its_counts(_rt: HostRuntime) -> Result<(), Fail> {
    let arity = Arity {
        least: 2,
        most: Some(3),
    };
    if !arity.admits(1) && arity.admits(2) && arity.admits(3) && !arity.admits(4) {
        return Ok(());
    }
    Err(Fail::new(format_args!("two or three arguments")))
}
