// From a program to the same with its names found and its types, or what is wrong with it.
ghost use Rattle.std.specs.Prelude.{◌≡◌, ℕ, map, IfOk, IfErr, OnOk, None};
ghost use Rattle.std.specs.List.{AllByRecursion};
ghost use Rattle.bicep_program.specs.Program.{program_file, files_of};
ghost use Rattle.resolved_program.specs.Programs.{IsResolved};
ghost use Rattle.resolved_program.specs.Faults.{first_in};
ghost use Rattle.resolved_program.specs.View.{file_view, files_view};
ghost use Rattle.bicep_checks.specs.Faults.{OfFile};
ghost use Rattle.bicep_types.specs.Program.{type_place};
ghost use Rattle.bicep_types.specs.Faults.{HasFault, IsMistyped, HasNoUntyped, IsAnswer};
ghost use Rattle.bicep_types.specs.Checked.{AreTypesOf, IsChecked, IsSettled, Fits};
ghost use Rattle.bicep_types.specs.Steps.{IsWrongAt};
ghost use Rattle.bicep_types.specs.declared.fault.CheckFault.{CheckFault as Fault};

use crate::checked::{Checked, Types};
use crate::fault::CheckFault;
use crate::files::{all_output_types, all_symbol_types};
use crate::metadata::first_metadata;
use crate::untyped::fault_of;
use bicep_checks::resolve;
use bicep_program::{Program, SourceFile};
use resolved_program::{ResolvedFile, drop_program};
use std::alloc::Global;

// The types of files whose names are found.
fn types_of(
    alloc: Global,
    files: &[SourceFile],
    resolved: &[ResolvedFile],
) -> Result<Types, CheckFault>
    requires resolved { IsResolved (map program_file files.now) (map file_view resolved.now) }
    requires none { HasNoUntyped (map program_file files.now) }
    ensures types { IfOk result (AreTypesOf (map program_file files.now) (map file_view resolved.now)) }
    ensures settled { OnOk result (AllByRecursion (IsSettled (map program_file files.now))
        (map file_view resolved.now)) }
    ensures none { OnOk result
        (first_in (type_place (map program_file files.now)) (map file_view resolved.now) ≡ None) }
    ensures fault { IfErr result
        (IsWrongAt (first_in (type_place (map program_file files.now)) (map file_view resolved.now))) }
{
    let outputs = match all_output_types(alloc, files) {
        Ok(outputs) => outputs,
        Err(_) => return Err(CheckFault::OutOfMemory),
    };
    match all_symbol_types(alloc, files, outputs.as_slice(), resolved) {
        Ok(symbols) => Ok(Types { symbols, outputs }),
        Err(fault) => Err(fault),
    }
}

// The same, where the values of metadata are literals too.
fn check_types(
    alloc: Global,
    files: &[SourceFile],
    resolved: &[ResolvedFile],
) -> Result<Types, CheckFault>
    requires resolved { IsResolved (map program_file files.now) (map file_view resolved.now) }
    requires none { HasNoUntyped (map program_file files.now) }
    ensures types { IfOk result (AreTypesOf (map program_file files.now) (map file_view resolved.now)) }
    ensures settled { OnOk result (AllByRecursion (IsSettled (map program_file files.now))
        (map file_view resolved.now)) }
    ensures none { OnOk result ((k at : ℕ)
        → ¬ OfFile (map program_file files.now) k (IsMistyped (map program_file files.now) at)) }
    ensures fault { IfErr result (IsAnswer (map program_file files.now)) }
{
    match first_metadata(files) {
        Some((number, at)) => Err(CheckFault::WrongType(number, at)),
        None => types_of(alloc, files, resolved),
    }
}

/// The program with all its names found, and its types.
///
/// # Errors
///
/// Each of these only where it holds of the program (`specs/Faults`), and of several the first in this order.
/// - `NameTwice`: a name is given twice, or is taken.
/// - `UnknownName`: a name means nothing.
/// - `SymbolCycle`: symbols mention each other in a circle.
/// - `BadDecorator`: a decorator may not be where it is, has other arguments than it takes, or was given before.
/// - `BadForPlace`: something may not be where it is.
/// - `MissingModuleParameter`, `ExtraModuleParameter`: a module lacks an argument, or has one that its file does not
///   take.
/// - `WrongType`: a part has no type that fits its place, or a value of metadata is no literal.
/// - `OutOfMemory`.
pub fn check(alloc: Global, program: &Program) -> Result<Checked, CheckFault>
    ensures checked { IfOk result (IsChecked (files_of program.now)) }
    ensures settled { IfOk result (λ c. AllByRecursion (IsSettled (files_of program.now)) (files_view c.resolved)) }
    ensures fits { IfOk result (λ c. AllByRecursion (Fits (files_of program.now)) (files_view c.resolved)) }
    ensures none { OnOk result ((fault : Fault) → ¬ HasFault (files_of program.now) fault) }
    ensures fault { IfErr result (IsAnswer (files_of program.now)) }
{
    let resolved = match resolve(alloc, program) {
        Ok(resolved) => resolved,
        Err(fault) => return Err(fault_of(fault)),
    };
    let types = check_types(alloc, program.files.as_slice(), resolved.files.as_slice());
    match types {
        Ok(types) => Ok(Checked { resolved, types }),
        Err(fault) => {
            drop_program(resolved);
            Err(fault)
        }
    }
}
