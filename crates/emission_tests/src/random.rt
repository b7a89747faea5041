// Random expressions: what they become has the values that they have.

use crate::rows::{declarations_of, tree_of};
use bicep_declared::Declared;
use bicep_found::join::let_go;
use random_expressions::plain::value_of;
use random_expressions::random::{Made, add_variable};
use std::alloc::Global;
use std::rt::HostRuntime;
use std::test::Fail;

// The value of what a variable becomes.
fn found_value(alloc: Global, variable: &Declared) -> Result<String, Fail> {
    match tree_of(alloc, variable) {
        Ok(tree) => {
            let value = value_of(alloc, &tree);
            let_go(tree);
            Ok(value?)
        }
        Err(fault) => Err(fault),
    }
}

// Adds the variable, where what it becomes has another value.
fn put_fault(
    faults: &mut String,
    alloc: Global,
    variable: &Declared,
    one: &Made,
) -> Result<(), Fail> {
    let found = found_value(alloc, variable)?;
    let (source, wanted) = (one.source.as_str(), one.value.as_str());
    if found.as_str() != wanted {
        write!(faults, "{source}: {found} in place of {wanted}\n")?;
    }
    Ok(())
}

// The faults of the variables, which are the last of the declarations.
fn put_all(
    faults: &mut String,
    alloc: Global,
    declarations: &[Declared],
    all: &[Made],
) -> Result<(), Fail> {
    if declarations.len() < all.len() {
        faults.push_str("a variable is not declared\n")?;
    }
    for (variable, one) in declarations.iter().rev().zip(all.iter().rev()) {
        put_fault(faults, alloc, variable, one)?;
    }
    Ok(())
}

// The faults of the variables of a file.
fn put_file(faults: &mut String, alloc: Global, source: &str, all: &[Made]) -> Result<(), Fail> {
    match declarations_of(alloc, source) {
        Ok(declarations) => {
            let put = put_all(faults, alloc, declarations.as_slice(), all);
            let_go(declarations);
            put
        }
        Err(fault) => Err(fault),
    }
}

// The faults of 50 random expressions in one file.
fn put_faults(faults: &mut String, alloc: Global, seed: &mut u32) -> Result<(), Fail> {
    let mut all = Vec::new(alloc);
    let mut source = String::new(alloc);
    for _ in 0..50u32 {
        add_variable(alloc, seed, &mut source, &mut all)?;
    }
    put_file(faults, alloc, source.as_str(), all.as_slice())
}

#[test]
fn random_expressions_keep_their_values(rt: HostRuntime) -> Result<(), Fail> {
    let alloc = rt.alloc();
    let mut faults = String::new(alloc);
    let mut seed = 7u32;
    for _ in 0..20u32 {
        put_faults(&mut faults, alloc, &mut seed)?;
    }
    if faults.is_empty() {
        return Ok(());
    }
    Err(Fail::new(format_args!("{faults}")))
}
