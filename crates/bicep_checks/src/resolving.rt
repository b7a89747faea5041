// From a program to the same with its names found, or what is wrong with it.
ghost use Rattle.std.specs.Prelude.{◌≡◌, map, IfOk, IfErr, OnOk, None};
ghost use Rattle.bicep_program.specs.Program.{program_file, files_of};
ghost use Rattle.resolved_program.specs.Programs.{IsResolved};
ghost use Rattle.resolved_program.specs.Faults as names;
ghost use Rattle.resolved_program.specs.View.{file_view, files_view};
ghost use Rattle.bicep_checks.specs.Faults.{HasFault};
ghost use Rattle.bicep_checks.specs.Order.{IsAnswer, Passes};
ghost use Rattle.bicep_checks.specs.Steps.{as_name};
ghost use Rattle.bicep_checks.specs.declared.fault.CheckFault.{CheckFault as Fault};

use crate::arguments::check_arguments;
use crate::circles::check_circles;
use crate::decorators::check_decorators;
use crate::fault::CheckFault;
use crate::places::check_places;
use bicep_program::{Program, SourceFile};
use resolved_program::{ResolveFault, ResolvedFile, ResolvedProgram, drop_program, resolve_names};
use std::alloc::Global;

// The fault of a name.
fn fault_of(fault: ResolveFault) -> CheckFault
    ensures { result ≡ as_name fault }
{
    match fault {
        ResolveFault::Twice(file, at) => CheckFault::NameTwice(file, at),
        ResolveFault::Unknown(file, at) => CheckFault::UnknownName(file, at),
        ResolveFault::OutOfMemory => CheckFault::OutOfMemory,
    }
}

// That nothing is wrong with files whose names are found.
fn check_files(
    alloc: Global,
    files: &[SourceFile],
    resolved: &[ResolvedFile],
) -> Result<(), CheckFault>
    requires once { names.first_in names.twice_of (map program_file files.now) ≡ None }
    requires resolved { IsResolved (map program_file files.now) (map file_view resolved.now) }
    ensures { Passes 6 (map program_file files.now) result }
{
    let state_place = match check_circles(alloc, resolved) {
        Ok(place) => place,
        Err(fault) => return Err(fault),
    };
    match check_decorators(files) {
        Ok(()) => {}
        Err(fault) => return Err(fault),
    }
    match check_places(alloc, files, resolved, state_place) {
        Ok(()) => {}
        Err(fault) => return Err(fault),
    }
    check_arguments(alloc, files)
}

/// The program with all its names found.
///
/// # Errors
///
/// Each of these only where it holds of the program (`specs/Faults`), and of several the first in this order.
/// - `NameTwice`: a name is given twice, or is taken.
/// - `UnknownName`: a name means nothing.
/// - `SymbolCycle`: symbols mention each other in a circle.
/// - `BadDecorator`: a decorator may not be where it is, has other arguments than it takes, or was given before.
/// - `BadForPlace`: something may not be where it is.
/// - `MissingModuleParameter`, `ExtraModuleParameter`: a module lacks an argument, or has one that its file does not
///   take.
/// - `OutOfMemory`.
pub fn resolve(alloc: Global, program: &Program) -> Result<ResolvedProgram, CheckFault>
    ensures resolved { IfOk result (λ r. IsResolved (files_of program.now) (files_view r)) }
    ensures none { OnOk result ((fault : Fault) → ¬ HasFault (files_of program.now) fault) }
    ensures fault { IfErr result (IsAnswer (files_of program.now)) }
{
    let files = program.files.as_slice();
    let resolved = match resolve_names(alloc, files) {
        Ok(resolved) => resolved,
        Err(fault) => return Err(fault_of(fault)),
    };
    match check_files(alloc, files, resolved.files.as_slice()) {
        Ok(()) => Ok(resolved),
        Err(fault) => {
            drop_program(resolved);
            Err(fault)
        }
    }
}
