// Which symbols a file has.

use crate::rows::{letting_go, parsed};
use bicep_names::Kind;
use bicep_parser::File;
use bicep_symbols::{Entry, FileNames, NameFault, names_of};
use std::alloc::{AllocError, Global};
use std::test::Fail;

const FILE: &str = "param p int
output o int = p
var v = p
resource r 'T/x@1' = {
  name: 'a'
  resource c 'y' = {
    name: 'b'
    resource d 'z' = [for x in []: {
      name: 'c'
    }]
  }
  resource e 'y' = {
    name: 'd'
  }
}
metadata m = 1
module n 'n.bicep' = [for x in []: {}]
resource rs 'T/x@1' existing = [for x in []: { name: 'a' }]
module q 'q.bicep' = {}
param w string = 'a'
";

const SYMBOLS: &str = "p: parameter
v: variable
r: resource
c: resource in 2
d: resource loop in 3
e: resource in 2
n: module loop 2
rs: resource loop
q: module 1
w: parameter
";

// Adds the kind of a symbol, with the number of the resource around it or of its file.
fn say_kind(out: &mut String, kind: Kind) -> Result<(), AllocError> {
    match kind {
        Kind::Parameter => out.push_str("parameter"),
        Kind::Variable => out.push_str("variable"),
        Kind::Resource(None) => out.push_str("resource"),
        Kind::Resource(Some(around)) => write!(out, "resource in {around}"),
        Kind::ResourceLoop(None) => out.push_str("resource loop"),
        Kind::ResourceLoop(Some(around)) => write!(out, "resource loop in {around}"),
        Kind::Module(file) => write!(out, "module {file}"),
        Kind::ModuleLoop(file) => write!(out, "module loop {file}"),
    }
}

fn say_entry(out: &mut String, entry: &Entry) -> Result<(), AllocError> {
    out.push_str(entry.name.as_str())?;
    out.push_str(": ")?;
    say_kind(out, entry.kind)?;
    out.push_str("\n")
}

// Adds the symbols, a line each.
fn say_symbols(out: &mut String, names: &Result<FileNames, NameFault>) -> Result<(), AllocError> {
    let Ok(names) = names else {
        return out.push_str("a name is given twice");
    };
    for entry in &names.entries {
        say_entry(out, entry)?;
    }
    Ok(())
}

fn say_file(out: &mut String, alloc: Global, file: &Option<File>) -> Result<(), AllocError> {
    let Some(file) = file else {
        return out.push_str("no file");
    };
    let names = names_of(alloc, &[2, 1], file.as_slice());
    letting_go(say_symbols(out, &names), names)
}

fn say_source(out: &mut String, alloc: Global, source: &str) -> Result<(), AllocError> {
    let file = parsed(alloc, source);
    letting_go(say_file(out, alloc, &file), file)
}

#[test]
fn symbols_are_in_source_order(rt: HostRuntime) -> Result<(), Fail> {
    let mut found = String::new(rt.alloc());
    say_source(&mut found, rt.alloc(), FILE)?;
    if found.as_str() == SYMBOLS {
        return Ok(());
    }
    Err(Fail::new(format_args!("{found}")))
}
