// Parameter files, and what they give.

use arm_edges::{MemFile, MemTree};
use arm_value::Bytes;
use parameter_files::{ParameterFault, read_parameters};
use std::alloc::{AllocError, Global};
use std::rt::HostRuntime;
use std::test::Fail;
use template_parts::Given;

// A line: the bytes of the file `p`, ` -> `, and what it gives.
const FILES: &str = "\
{\"parameters\":{\"a\":{\"value\":1},\"B\":{\"Value\":\"x\"}}} -> 2
{\"Parameters\":{},\"contentVersion\":\"1.0.0.0\"} -> 0
{\"parameters\":{\"a\":{\"value\":1} -> NotJson
{\"parameters\":{\"a\":{\"value\":1.5}}} -> NotWhole
{\"parameters\":{\"a\":{\"value\":1,\"value2\":2}}} -> WrongForm
{\"parameters\":{\"a\":{\"value\":1},\"A\":{\"value\":2}}} -> WrongForm
{\"parameters\":[]} -> WrongForm
{\"a\":{\"value\":1}} -> WrongForm
[] -> WrongForm
 -> NotJson
";

// A tree whose file `p` has this text; the calls of those numbers fail.
fn tree_of(alloc: Global, text: &str, fails: &[u64]) -> Result<MemTree, AllocError> {
    let mut files = Vec::new(alloc);
    files.push(MemFile {
        name: String::from_str(alloc, "p")?,
        bytes: Bytes::from_vec(text.as_bytes().to_vec(alloc)?),
    })?;
    Ok(MemTree::new(alloc, files, fails.to_vec(alloc)?))
}

fn word_of(fault: ParameterFault) -> &'static str {
    match fault {
        ParameterFault::Missing => "Missing",
        ParameterFault::TooLarge => "TooLarge",
        ParameterFault::NotJson => "NotJson",
        ParameterFault::TooDeep => "TooDeep",
        ParameterFault::NotWhole => "NotWhole",
        ParameterFault::WrongForm => "WrongForm",
        ParameterFault::Fault => "Fault",
        ParameterFault::OutOfMemory => "OutOfMemory",
    }
}

// How many values there are, or the fault.
fn shown(alloc: Global, given: Result<Given, ParameterFault>) -> Result<String, AllocError> {
    match given {
        Ok(given) => format!(in alloc; "{}", given.as_slice().len()),
        Err(fault) => String::from_str(alloc, word_of(fault)),
    }
}

// Fails where the file of this name, of that tree, gives something else than wanted.
fn check(alloc: Global, tree: &mut MemTree, name: &str, wanted: &str) -> Result<(), Fail> {
    let given = read_parameters(alloc, tree, name);
    let found = shown(alloc, given)?;
    if found.as_str() == wanted {
        return Ok(());
    }
    Err(Fail::new(format_args!("{wanted} but {}", found.as_str())))
}

#[test]
fn files_give_values_or_are_refused(rt: HostRuntime) -> Result<(), Fail> {
    let alloc = rt.alloc();
    for line in FILES.lines() {
        let Some((text, wanted)) = line.split_once(" -> ") else {
            return Err(Fail::from("nothing wanted in a line"));
        };
        let mut tree = tree_of(alloc, text, &[])?;
        check(alloc, &mut tree, "p", wanted)?;
    }
    Ok(())
}

#[test]
fn files_that_are_not_there_or_not_read(rt: HostRuntime) -> Result<(), Fail> {
    let alloc = rt.alloc();
    let mut tree = tree_of(alloc, "{\"parameters\":{}}", &[1])?;
    check(alloc, &mut tree, "q", "Missing")?;
    check(alloc, &mut tree, "p", "Fault")?;
    check(alloc, &mut tree, "p", "0")
}
