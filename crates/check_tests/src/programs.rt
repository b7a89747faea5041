// Programs, and what is answered of each.

use crate::faulty::{self, write_faulty};
use crate::named::{self, write_named};
use crate::typed::{self, write_typed};
use arm_edges::{MemFile, MemTree};
use arm_value::Bytes;
use bicep_program::{LoadFault, Program, load};
use std::alloc::{AllocError, Global};
use std::test::Fail;

/// What is asked of a program.
#[derive(Clone, Copy)]
pub enum Question {
    /// What the names at the places of a table stand for.
    Names,
    /// Its first fault but for types.
    Faults,
    /// Its first fault, also of a type.
    Types,
}

/// The answer; the part is dropped.
pub fn letting_go<T: Drop, R>(answer: R, _part: T) -> R {
    answer
}

fn file_of(alloc: Global, name: &str, text: &str) -> Result<MemFile, AllocError> {
    Ok(MemFile {
        name: String::from_str(alloc, name)?,
        bytes: Bytes::from_vec(Vec::from_slice(alloc, text.as_bytes())?),
    })
}

// The modules beside the main file, by their paths.
fn modules_of(question: Question) -> &'static [(&'static str, &'static str)] {
    match question {
        Question::Names => &named::MODULES,
        Question::Faults => &faulty::MODULES,
        Question::Types => &typed::MODULES,
    }
}

fn folder(alloc: Global, question: Question, text: &str) -> Result<MemTree, AllocError> {
    let mut files = Vec::new(alloc);
    files.push(file_of(alloc, "main.bicep", text)?)?;
    for (name, module) in modules_of(question) {
        files.push(file_of(alloc, name, module)?)?;
    }
    Ok(MemTree::new(alloc, files, Vec::new(alloc)))
}

fn write_loaded(
    alloc: Global,
    out: &mut String,
    question: Question,
    (text, table, mark): (&str, &str, usize),
    program: &Result<Program, LoadFault>,
) -> Result<(), AllocError> {
    let Ok(program) = program else {
        return out.push_str("not loaded\n");
    };
    match question {
        Question::Names => write_named(alloc, out, program, text, table),
        Question::Faults => write_faulty(alloc, out, program, mark),
        Question::Types => write_typed(alloc, out, program, mark),
    }
}

/// Writes what is answered of the program of a main file, for a table of places, or with the place of its fault.
pub fn write_program(
    alloc: Global,
    out: &mut String,
    question: Question,
    (text, table, mark): (&str, &str, usize),
) -> Result<(), AllocError> {
    let mut tree = folder(alloc, question, text)?;
    let program = load(alloc, &mut tree, "main.bicep");
    letting_go(
        write_loaded(alloc, out, question, (text, table, mark), &program),
        (tree, program),
    )
}

/// Writes what is answered of the program of a main file. A `^` in it is the place of the fault, and no part of the
/// file.
pub fn write_answer(
    alloc: Global,
    out: &mut String,
    question: Question,
    marked: &str,
) -> Result<(), AllocError> {
    let Some((before, after)) = marked.split_once('^') else {
        return write_program(alloc, out, question, (marked, "", 0));
    };
    let text = format!(in alloc; "{before}{after}")?;
    write_program(alloc, out, question, (text.as_str(), "", before.len()))
}

// Writes the answer of each program of a table, a line each. An empty line divides two programs.
fn write_answers(
    alloc: Global,
    out: &mut String,
    question: Question,
    programs: &str,
) -> Result<(), AllocError> {
    for program in programs.split("\n\n") {
        write_answer(alloc, out, question, program)?;
        out.push_str("\n")?;
    }
    Ok(())
}

/// Fails unless this is found.
pub fn compare(found: &str, wanted: &str) -> Result<(), Fail> {
    if found == wanted {
        return Ok(());
    }
    Err(Fail::new(format_args!("{found}")))
}

/// Fails unless the programs of a table have these answers, a line each.
pub fn check(alloc: Global, question: Question, programs: &str, wanted: &str) -> Result<(), Fail> {
    let mut found = String::new(alloc);
    write_answers(alloc, &mut found, question, programs)?;
    compare(found.as_str(), wanted)
}
