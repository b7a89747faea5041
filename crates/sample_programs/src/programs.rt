//! What becomes of programs.
ghost use Rattle.bicep_emit.specs.Clauses as spec;

use arm_edges::{MemFile, MemTree};
use arm_value::Bytes;
use bicep_emit::{EmitFault, build_bytes, emit};
use bicep_program::{Program, load};
use bicep_types::{Checked, check};
use std::alloc::{AllocError, Global};
use std::test::Fail;
use template_parts::Form;

/// The answer; the part is dropped.
pub fn letting_go<T: Drop, R>(answer: R, _part: T) -> R {
    answer
}

fn file_of(alloc: Global, name: &str, text: &str) -> Result<MemFile, AllocError> {
    Ok(MemFile {
        name: String::from_str(alloc, name)?,
        bytes: Bytes::from_vec(Vec::from_slice(alloc, text.as_bytes())?),
    })
}

// The name and the text of a part of a program: the main file comes first, and has no line for its name.
fn named(part: &str, is_main: bool) -> (&str, &str) {
    if is_main {
        return ("main.bicep", part);
    }
    part.split_once('\n').unwrap_or((part, ""))
}

/// The files of a program, of which the main file comes first. Each other file comes after a line as
/// `--- modules/network.bicep`.
///
/// # Errors
///
/// There is no memory.
pub fn folder(alloc: Global, program: &str) -> Result<MemTree, AllocError> {
    let mut files = Vec::new(alloc);
    for part in program.split("\n--- ") {
        let (name, text) = named(part, files.is_empty());
        files.push(file_of(alloc, name, text)?)?;
    }
    Ok(MemTree::new(alloc, files, Vec::new(alloc)))
}

/// What a program becomes.
#[derive(Drop)]
pub enum Outcome {
    /// The bytes of its template.
    Built(Bytes),
    /// It has no template within the limits.
    Beyond(EmitFault),
    /// It is refused earlier.
    Refused,
}

fn of_bytes(bytes: Result<Bytes, EmitFault>) -> Outcome {
    match bytes {
        Ok(bytes) => Outcome::Built(bytes),
        Err(fault) => Outcome::Beyond(fault),
    }
}

fn refused<T: Drop>(part: T) -> Outcome {
    letting_go(Outcome::Refused, part)
}

// The bytes of the template, in a form, of a program that is read and checked.
fn bytes_of(
    alloc: Global,
    program: &Program,
    checked: &Checked,
    form: Form,
) -> Result<Bytes, EmitFault>
    requires loaded { spec.IsLoaded program.now }
    requires checked { spec.IsCheckedAs program.now checked.now }
    requires none { spec.HasNoFault program.now }
{
    match emit(alloc, program, checked, form) {
        Ok(template) => {
            let bytes = build_bytes(alloc, &template);
            letting_go(bytes, template)
        }
        Err(fault) => Err(fault),
    }
}

// What a program becomes that is read.
fn emitted(alloc: Global, program: &Program, form: Form) -> Outcome
    requires { spec.IsLoaded program.now }
{
    match check(alloc, program) {
        Ok(checked) => {
            let bytes = bytes_of(alloc, program, &checked, form);
            letting_go(of_bytes(bytes), checked)
        }
        Err(fault) => refused(fault),
    }
}

/// What the program of these files becomes in a form. The main file comes first. Each other file comes after a line
/// as `--- modules/network.bicep`.
///
/// # Errors
///
/// There is no memory.
pub fn outcome_of(alloc: Global, program: &str, form: Form) -> Result<Outcome, AllocError> {
    let mut tree = folder(alloc, program)?;
    match load(alloc, &mut tree, "main.bicep") {
        Ok(program) => {
            let outcome = emitted(alloc, &program, form);
            Ok(letting_go(outcome, (program, tree)))
        }
        Err(fault) => Ok(refused((fault, tree))),
    }
}

fn write_beyond(out: &mut String, fault: EmitFault) -> Result<(), AllocError> {
    match fault {
        EmitFault::Limit(which, number) => write!(out, "{} {number}", which.word()),
        EmitFault::TooDeep => out.push_str("too deep"),
        EmitFault::OutOfMemory => out.push_str("out of memory"),
    }
}

/// Writes what a program becomes.
pub fn write_outcome(out: &mut String, outcome: &Outcome) -> Result<(), AllocError> {
    match outcome {
        Outcome::Built(bytes) => match str::from_utf8(bytes.as_slice()) {
            Ok(text) => out.push_str(text),
            Err(_) => out.push_str("no text"),
        },
        Outcome::Beyond(fault) => write_beyond(out, *fault),
        Outcome::Refused => out.push_str("refused"),
    }
}

/// What the program of these files becomes in a form, as a text: the template, the limit that it is beyond, or
/// `refused`.
///
/// # Errors
///
/// There is no memory.
pub fn outcome_text(alloc: Global, program: &str, form: Form) -> Result<String, Fail> {
    let outcome = outcome_of(alloc, program, form)?;
    let mut out = String::new(alloc);
    let written = write_outcome(&mut out, &outcome);
    letting_go(written, outcome)?;
    Ok(out)
}

/// Fails unless the text is the one that is wanted.
pub fn compare(found: &str, wanted: &str) -> Result<(), Fail> {
    if found == wanted {
        return Ok(());
    }
    Err(Fail::new(format_args!("{found}\nand not\n{wanted}")))
}
