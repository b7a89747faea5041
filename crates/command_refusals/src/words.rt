// Refusals by their codes.

ghost use Rattle.std.specs.Prelude.{◌≡◌, codes, encode_utf8_all, IfOk};
ghost use Rattle.command_reports.specs.Faults.{fault_report, refusal_report};
ghost use Rattle.command_reports.specs.declared.faults.Fault.TheVariants.{Memory, Tree};
ghost use Rattle.command_refusals.specs.Sources.{at_place};

use arm_value::{OutOfMemory, Text};
use command_reports::{Fault, Report, fault_report, refusal_report};
use std::alloc::Global;

/// A refusal with a text.
pub(crate) fn of_text(alloc: Global, code: &str, detail: &Text) -> Result<Report, OutOfMemory>
    ensures { IfOk result (λ r. r ≡ refusal_report code.now (encode_utf8_all detail.now)) }
{
    refusal_report(alloc, code, detail.as_str())
}

/// A refusal with a file and an offset in it.
pub(crate) fn at_place(
    alloc: Global,
    code: &str,
    file: &str,
    at: usize,
) -> Result<Report, OutOfMemory>
    ensures { IfOk result (λ r. r ≡ at_place code.now file.now at) }
{
    let place = format!(in alloc; "{file}:{at}")?;
    refusal_report(alloc, code, place.as_str())
}

/// The report of a refusal for want of memory.
pub(crate) fn out_of_memory(alloc: Global) -> Result<Report, OutOfMemory>
    ensures { IfOk result (λ r. r ≡ fault_report Memory) }
{
    fault_report(alloc, Fault::Memory)
}

/// The report of a fault of the tree.
pub(crate) fn tree_fault(alloc: Global) -> Result<Report, OutOfMemory>
    ensures { IfOk result (λ r. r ≡ fault_report Tree) }
{
    fault_report(alloc, Fault::Tree)
}
