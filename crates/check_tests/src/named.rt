// What the names of programs stand for.

use crate::meanings::write_source;
use crate::parts::{output_at, symbol_at};
use crate::programs::letting_go;
use bicep_program::Program;
use bicep_resolved::Source;
use resolved_program::{ResolveFault, ResolvedFile, ResolvedProgram, resolve_names};
use std::alloc::{AllocError, Global};

/// The modules that the files name.
pub static MODULES: [(&str, &str); 5] = [
    (
        "modules/network.bicep",
        "output id string = ''\noutput subnetIds array = []\n",
    ),
    ("modules/database.bicep", "output host string = ''\n"),
    ("modules/app.bicep", "output host string = ''\n"),
    (
        "stamp.bicep",
        "output appId string = ''\noutput summary string = ''\n",
    ),
    ("peering.bicep", "output state string = ''\n"),
];

// The expression of a place: a symbol, or `output` and the name of an output, and the path from its declaration.
fn place_at<'a>(file: &'a ResolvedFile, place: &str) -> Option<&'a Source> {
    let (name, path) = place.split_once(' ').unwrap_or((place, ""));
    if name == "output" {
        let (name, path) = path.split_once(' ').unwrap_or((path, ""));
        return output_at(file, name, path);
    }
    symbol_at(file, name, path)
}

// Each place of a table, and what the name there stands for.
fn write_places(
    out: &mut String,
    program: &ResolvedProgram,
    file: &ResolvedFile,
    table: &str,
) -> Result<(), AllocError> {
    for line in table.lines() {
        let (place, _) = line.split_once(" => ").unwrap_or((line, ""));
        write!(out, "{place} => ")?;
        match place_at(file, place) {
            Some(e) => write_source(out, program, file, e)?,
            None => out.push_str("nothing")?,
        }
        out.push_str("\n")?;
    }
    Ok(())
}

// The first six bytes of a name that means nothing.
fn write_fault(out: &mut String, text: &str, fault: &ResolveFault) -> Result<(), AllocError> {
    match fault {
        ResolveFault::Unknown(0, at) => {
            let word = text.get(*at..at.saturating_add(6)).unwrap_or("");
            write!(out, "unknown {word}\n")
        }
        _ => out.push_str("another fault\n"),
    }
}

fn write_main(out: &mut String, program: &ResolvedProgram, table: &str) -> Result<(), AllocError> {
    match program.files.first() {
        Some(file) => write_places(out, program, file, table),
        None => out.push_str("no file\n"),
    }
}

fn write_names(
    out: &mut String,
    resolved: &Result<ResolvedProgram, ResolveFault>,
    text: &str,
    table: &str,
) -> Result<(), AllocError> {
    match resolved {
        Ok(resolved) => write_main(out, resolved, table),
        Err(fault) => write_fault(out, text, fault),
    }
}

/// Writes the places of the table of a main file with what their names stand for, or its first unknown name.
pub fn write_named(
    alloc: Global,
    out: &mut String,
    program: &Program,
    text: &str,
    table: &str,
) -> Result<(), AllocError> {
    let resolved = resolve_names(alloc, program.files.as_slice());
    letting_go(write_names(out, &resolved, text, table), resolved)
}
