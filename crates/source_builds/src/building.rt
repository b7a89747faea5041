// The bytes of the template of a program.

ghost use Rattle.source_builds.specs.Clauses as spec;

use arm_edges::Tree;
use arm_value::{Bytes, OutOfMemory};
use bicep_emit::{EmitFault, build_bytes, emit};
use bicep_program::{Program, load};
use bicep_types::{Checked, check};
use command_refusals::{check_report, load_report};
use command_reports::{Fault, Report, fault_report, refusal_report};
use std::alloc::Global;
use template_parts::Form;

/// Why nothing is built.
#[derive(Drop)]
pub enum NotBuilt {
    /// It is refused, or a file could not be read, or memory was out: this is reported.
    Refused(Report),
    /// Out of memory, also for the report.
    OutOfMemory,
}

// That nothing is built, for the reason of this report.
fn refused(report: Result<Report, OutOfMemory>) -> NotBuilt
    ensures { spec.IsRefusedBy report result }
{
    match report {
        Ok(report) => NotBuilt::Refused(report),
        Err(_) => NotBuilt::OutOfMemory,
    }
}

// The report of a program that becomes no template, whose main file has this name.
fn emit_report(alloc: Global, main: &str, fault: EmitFault) -> Result<Report, OutOfMemory>
    ensures { spec.IsEmitReport main.now fault result }
{
    match fault {
        EmitFault::Limit(_, _) => refusal_report(alloc, "Limit", main),
        EmitFault::TooDeep => refusal_report(alloc, "TooDeep", main),
        EmitFault::OutOfMemory => fault_report(alloc, Fault::Memory),
    }
}

// The answer; the part is dropped.
fn letting_go<T: Drop, R>(answer: R, _part: T) -> R
    ensures { spec.IsSame result answer }
{
    answer
}

// The bytes of the template of a checked program, in the form.
fn build_checked(
    alloc: Global,
    program: &Program,
    checked: &Checked,
    form: Form,
) -> Result<Bytes, EmitFault>
    requires { spec.IsLoadedAndChecked program.now checked.now }
    ensures { spec.IsEmittedAs form program.now checked.now result }
{
    match emit(alloc, program, checked, form) {
        Ok(template) => {
            let bytes = build_bytes(alloc, &template);
            letting_go(bytes, template)
        }
        Err(fault) => Err(fault),
    }
}

// The bytes of the template of a program of the main file of this name.
fn build_program(
    alloc: Global,
    main: &str,
    program: &Program,
    form: Form,
) -> Result<Bytes, NotBuilt>
    requires { spec.IsLoaded program.now }
    ensures { spec.HasBuiltProgram program.now main.now form result }
{
    match check(alloc, program) {
        Ok(checked) => {
            let built = build_in(alloc, main, program, &checked, form);
            letting_go(built, checked)
        }
        Err(fault) => {
            let files = program.files.as_slice();
            let report = check_report(alloc, files, &fault);
            Err(refused(letting_go(report, fault)))
        }
    }
}

// The same bytes, or why there are none.
fn build_in(
    alloc: Global,
    main: &str,
    program: &Program,
    checked: &Checked,
    form: Form,
) -> Result<Bytes, NotBuilt>
    requires { spec.IsLoadedAndChecked program.now checked.now }
    ensures { spec.HasBuiltChecked program.now checked.now main.now form result }
{
    match build_checked(alloc, program, checked, form) {
        Ok(bytes) => Ok(bytes),
        Err(fault) => Err(refused(emit_report(alloc, main, fault))),
    }
}

/// The bytes of the template that the program of a main file becomes, which is given by its name.
///
/// # Errors
///
/// Each with its report, in this order: the files are not loaded; something is wrong with their program; it becomes no
/// template within the limits.
pub fn build_source<T: Tree>(
    alloc: Global,
    tree: &mut T,
    main: &str,
    form: Form,
) -> Result<Bytes, NotBuilt>
    ensures built { spec.HasBuilt T.tells_files (T.file tree.old) main.now form result }
    ensures tree { spec.TellsTree (T.faults tree.old) (T.faults tree.new) result }
    ensures stays { spec.Stay (T.file tree.old) (T.file tree.new) }
{
    match load(alloc, tree, main) {
        Ok(program) => {
            let built = build_program(alloc, main, &program, form);
            letting_go(built, program)
        }
        Err(fault) => {
            let report = load_report(alloc, main, &fault);
            Err(refused(letting_go(report, fault)))
        }
    }
}
