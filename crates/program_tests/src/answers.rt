// What is loaded, as one line.

use crate::folders::folder;
use arm_value::Texts;
use bicep_program::{LoadFault, Program, SourceFile, load};
use std::alloc::{AllocError, Global};

fn add_file(alloc: Global, out: &mut String, file: &SourceFile) -> Result<(), AllocError> {
    out.push_str(file.name.as_str())?;
    for number in &file.modules {
        let word = format!(in alloc; " {number}")?;
        out.push_str(word.as_str())?;
    }
    out.push_str(";")
}

// The files, each with the numbers of its modules.
fn listed(alloc: Global, program: &Program) -> Result<String, AllocError> {
    let mut out = String::new(alloc);
    for file in &program.files {
        add_file(alloc, &mut out, file)?;
    }
    Ok(out)
}

fn circle(alloc: Global, names: &Texts) -> Result<String, AllocError> {
    let mut out = String::from_str(alloc, "ModuleCycle")?;
    for name in names.as_slice() {
        out.push_str(" ")?;
        out.push_str(name.as_str())?;
    }
    Ok(out)
}

fn refused(alloc: Global, fault: &LoadFault) -> Result<String, AllocError> {
    match fault {
        LoadFault::ModuleMissing(file, path) => format!(in alloc; "ModuleMissing {file} {path}"),
        LoadFault::ModuleCycle(names) => circle(alloc, names),
        LoadFault::TooManyFiles => String::from_str(alloc, "TooManyFiles"),
        LoadFault::ReadFault => String::from_str(alloc, "ReadFault"),
        LoadFault::TooLarge(file) => format!(in alloc; "TooLarge {file}"),
        LoadFault::NotText(file) => format!(in alloc; "NotText {file}"),
        LoadFault::Lex(file, fault) => format!(in alloc; "Lex {file} {fault}"),
        LoadFault::Parse(file, fault) => format!(in alloc; "Parse {file} {fault}"),
        LoadFault::OutOfMemory => String::from_str(alloc, "OutOfMemory"),
    }
}

/// What is loaded from the folder of a text.
pub fn loaded(alloc: Global, text: &str, main: &str) -> Result<String, AllocError> {
    let mut tree = folder(alloc, text)?;
    match load(alloc, &mut tree, main) {
        Ok(program) => listed(alloc, &program),
        Err(fault) => refused(alloc, &fault),
    }
}
