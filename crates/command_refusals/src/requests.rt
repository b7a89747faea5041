// Why parameter files and requests are refused.

ghost use Rattle.std.specs.Prelude.{◌≡◌, IfOk};
ghost use Rattle.command_refusals.specs.Requests.{code_report, name_report, parameter_report};

use crate::words::{out_of_memory, tree_fault};
use arm_value::OutOfMemory;
use command_reports::{Report, refusal_report};
use http_replies::Code;
use parameter_files::ParameterFault;
use std::alloc::Global;

/// The report of the parameter file of this name, which gives nothing.
pub fn parameter_report(
    alloc: Global,
    file: &str,
    fault: ParameterFault,
) -> Result<Report, OutOfMemory>
    ensures { IfOk result (λ r. r ≡ parameter_report file.now fault) }
{
    match fault {
        ParameterFault::Missing => refusal_report(alloc, "FileMissing", file),
        ParameterFault::TooLarge => refusal_report(alloc, "TooLarge", file),
        ParameterFault::NotJson => refusal_report(alloc, "NotJson", file),
        ParameterFault::TooDeep => refusal_report(alloc, "TooDeep", file),
        ParameterFault::NotWhole => refusal_report(alloc, "NotWhole", file),
        ParameterFault::WrongForm => refusal_report(alloc, "WrongForm", file),
        ParameterFault::Fault => tree_fault(alloc),
        ParameterFault::OutOfMemory => out_of_memory(alloc),
    }
}

/// The report of a name that is outside its form.
pub fn name_report(alloc: Global, name: &str) -> Result<Report, OutOfMemory>
    ensures { IfOk result (λ r. r ≡ name_report name.now) }
{
    let detail = format!(in alloc; "BadName {name}")?;
    refusal_report(alloc, "InvalidParameter", detail.as_str())
}

/// The report of a request that is refused.
pub fn code_report(alloc: Global, code: &Code) -> Result<Report, OutOfMemory>
    ensures { IfOk result (λ r. r ≡ code_report code.now) }
{
    refusal_report(alloc, code.name(), code.message())
}
