// The arguments of the modules of a program.
ghost use Rattle.std.specs.Prelude.{◌≡◌, map, IfOk};
ghost use Rattle.bicep_program.specs.Program.{program_file};
ghost use Rattle.bicep_arguments.specs.View.{parameters_tree};
ghost use Rattle.resolved_program.specs.Faults.{first_in};
ghost use Rattle.bicep_checks.specs.Faults as spec;
ghost use Rattle.bicep_checks.specs.Order.{HasNone, Passes};
ghost use Rattle.bicep_checks.specs.Steps.{argument_by, as_argument};

use crate::fault::CheckFault;
use arm_value::OutOfMemory;
use bicep_arguments::{ArgumentFault, Parameters, bad_argument, parameters_of};
use bicep_program::SourceFile;
use std::alloc::Global;

// The parameters of each file.
fn all_parameters(alloc: Global, files: &[SourceFile]) -> Result<Vec<Parameters>, OutOfMemory>
    ensures { IfOk result (λ v. map parameters_tree v.items
        ≡ map spec.parameters_of (map program_file files.now)) }
{
    let mut parameters = Vec::new(alloc);
    for file in files {
        parameters.push(parameters_of(alloc, file.file.as_slice())?)?;
    }
    Ok(parameters)
}

// The first fault of arguments, and the number of its file.
fn first_argument(
    alloc: Global,
    parameters: &[Parameters],
    files: &[SourceFile],
) -> Result<Option<(usize, ArgumentFault)>, OutOfMemory>
    ensures { IfOk result (λ o. o
        ≡ first_in (argument_by (map parameters_tree parameters.now)) (map program_file files.now)) }
{
    for (number, file) in files.iter().enumerate() {
        match bad_argument(
            alloc,
            parameters,
            file.modules.as_slice(),
            file.file.as_slice(),
        )? {
            Some(fault) => return Ok(Some((number, fault))),
            None => {}
        }
    }
    Ok(None)
}

// The same of the parameters of these files.
fn first_of(
    alloc: Global,
    files: &[SourceFile],
) -> Result<Option<(usize, ArgumentFault)>, OutOfMemory>
    ensures { IfOk result (λ o. o ≡ first_in (spec.argument_fault (map program_file files.now))
        (map program_file files.now)) }
{
    let parameters = all_parameters(alloc, files)?;
    first_argument(alloc, parameters.as_slice(), files)
}

fn fault_in(number: usize, fault: ArgumentFault) -> CheckFault
    ensures { result ≡ as_argument number fault }
{
    match fault {
        ArgumentFault::Missing(at) => CheckFault::MissingModuleParameter(number, at),
        ArgumentFault::Extra(at) => CheckFault::ExtraModuleParameter(number, at),
    }
}

/// That each module has the arguments that its file takes.
pub(crate) fn check_arguments(alloc: Global, files: &[SourceFile]) -> Result<(), CheckFault>
    requires { HasNone 5 (map program_file files.now) }
    ensures { Passes 6 (map program_file files.now) result }
{
    match first_of(alloc, files) {
        Ok(Some((number, fault))) => Err(fault_in(number, fault)),
        Ok(None) => Ok(()),
        Err(_) => Err(CheckFault::OutOfMemory),
    }
}
