// What is wrong with programs but for types.

use crate::programs::letting_go;
use arm_value::Texts;
use bicep_checks::{CheckFault, resolve};
use bicep_program::Program;
use resolved_program::ResolvedProgram;
use std::alloc::{AllocError, Global};

/// The module of each program: a parameter without a default, and an output.
pub static MODULES: [(&str, &str); 1] = [(
    "m.bicep",
    "param p string\nparam q string = ''\noutput o string = p\n",
)];

/// Writes the word, and the place where it is not the marked one of the main file.
pub fn write_placed(
    out: &mut String,
    word: &str,
    file: usize,
    at: usize,
    mark: usize,
) -> Result<(), AllocError> {
    out.push_str(word)?;
    if file == 0 && at == mark {
        return Ok(());
    }
    write!(out, " in {file} at {at}")
}

/// Writes the names of a circle.
pub fn write_circle(out: &mut String, names: &Texts) -> Result<(), AllocError> {
    out.push_str("SymbolCycle")?;
    for name in names.as_slice() {
        out.push_str(" ")?;
        out.push_str(name.as_str())?;
    }
    Ok(())
}

fn write_fault(out: &mut String, fault: &CheckFault, mark: usize) -> Result<(), AllocError> {
    match fault {
        CheckFault::UnknownName(file, at) => write_placed(out, "UnknownName", *file, *at, mark),
        CheckFault::NameTwice(file, at) => write_placed(out, "NameTwice", *file, *at, mark),
        CheckFault::SymbolCycle(_, names) => write_circle(out, names),
        CheckFault::BadDecorator(file, at) => write_placed(out, "BadDecorator", *file, *at, mark),
        CheckFault::BadForPlace(file, at) => write_placed(out, "BadForPlace", *file, *at, mark),
        CheckFault::MissingModuleParameter(file, at) => {
            write_placed(out, "MissingModuleParameter", *file, *at, mark)
        }
        CheckFault::ExtraModuleParameter(file, at) => {
            write_placed(out, "ExtraModuleParameter", *file, *at, mark)
        }
        CheckFault::OutOfMemory => out.push_str("OutOfMemory"),
    }
}

// How many symbols and outputs each file has.
fn write_counts(out: &mut String, resolved: &ResolvedProgram) -> Result<(), AllocError> {
    for file in &resolved.files {
        let symbols = file.declared.declarations.len();
        let outputs = file.outputs.len();
        write!(out, "{symbols} {outputs};")?;
    }
    Ok(())
}

fn write_resolved(
    out: &mut String,
    resolved: &Result<ResolvedProgram, CheckFault>,
    mark: usize,
) -> Result<(), AllocError> {
    match resolved {
        Ok(resolved) => write_counts(out, resolved),
        Err(fault) => write_fault(out, fault, mark),
    }
}

/// Writes the fault of a program, or how many symbols and outputs each of its files has.
pub fn write_faulty(
    alloc: Global,
    out: &mut String,
    program: &Program,
    mark: usize,
) -> Result<(), AllocError> {
    let resolved = resolve(alloc, program);
    letting_go(write_resolved(out, &resolved, mark), resolved)
}
