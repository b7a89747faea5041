// How a report is printed.

ghost use Rattle.std.specs.Prelude.{◌≡◌, if◌then◌else◌, is_ok};
ghost use Rattle.command_reports.specs.Faults.{fault_report};
ghost use Rattle.command_reports.specs.Reports.{status_unprinted, Reported};
ghost use Rattle.command_reports.specs.declared.faults.Fault.TheVariants.{Memory};

use crate::report::Report;
use arm_edges::{Failed, Sink};
use http_replies::send_all;

// The status of a report, or 5 in place of 0 to 3 where the output failed.
fn exit_status(reported: u8, printed: Result<(), Failed>) -> u8
    ensures { result ≡ (if is_ok printed then reported else status_unprinted reported) }
{
    if printed.is_err() && reported <= 3 {
        return 5;
    }
    reported
}

/// Prints a report, or a beginning of it where the output fails. Returns the status with which the program ends.
pub fn print<O: Sink>(out: &mut O, report: &Report) -> u8
    ensures { Reported
        (record { tells = O.tells_written; written = O.written out.old; faults = O.faults out.old })
        (record { tells = O.tells_written; written = O.written out.new; faults = O.faults out.new })
        report.now result }
{
    let printed = send_all(out, report.text.as_slice());
    exit_status(report.status, printed)
}

/// Prints that memory is out. It takes no memory. Returns the status with which the program ends.
pub fn print_out_of_memory<O: Sink>(out: &mut O) -> u8
    ensures { Reported
        (record { tells = O.tells_written; written = O.written out.old; faults = O.faults out.old })
        (record { tells = O.tells_written; written = O.written out.new; faults = O.faults out.new })
        (fault_report Memory) result }
{
    let printed = send_all(out, b"fault memory\n");
    exit_status(9, printed)
}
