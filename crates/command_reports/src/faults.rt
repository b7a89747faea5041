// The lines of faults.

ghost use Rattle.std.specs.Prelude.{◌≡◌, IfOk, string_bytes};
ghost use Rattle.command_reports.specs.Faults.{fault_report, fault_status, fault_text};

use crate::report::Report;
use arm_value::{Bytes, OutOfMemory};
use std::alloc::Global;

/// A fault that ends a command.
#[derive(Clone, Copy, Debug, PartialEq, Eq)]
pub enum Fault {
    /// The tree failed to read a file.
    Tree,
    /// The disk failed.
    Disk,
    /// The provider of this seat failed. The deployment is active.
    Provider(u32),
    /// The link failed.
    Link,
    /// Out of memory.
    Memory,
    /// A record does not fit in the journal.
    Full {
        /// The length of the journal, in bytes.
        length: u64,
        /// The length that it would need, in bytes.
        needed: u64,
    },
    /// The disk holds no journal, or its records do not replay.
    Journal,
}

// The line of a fault.
fn fault_text(alloc: Global, fault: Fault) -> Result<String, OutOfMemory>
    ensures { IfOk result (λ t. string_bytes t ≡ fault_text fault) }
{
    match fault {
        Fault::Tree => format!(in alloc; "fault tree\n"),
        Fault::Disk => format!(in alloc; "fault disk\n"),
        Fault::Provider(seat) => format!(in alloc; "fault provider {seat}\n"),
        Fault::Link => format!(in alloc; "fault link\n"),
        Fault::Memory => format!(in alloc; "fault memory\n"),
        Fault::Full { length, needed } => format!(in alloc; "fault full {length} {needed}\n"),
        Fault::Journal => format!(in alloc; "fault journal\n"),
    }
}

// The status with which the program ends after a fault.
fn fault_status(fault: Fault) -> u8
    ensures { result ≡ fault_status fault }
{
    match fault {
        Fault::Tree => 4,
        Fault::Disk => 6,
        Fault::Provider(_) => 7,
        Fault::Link => 8,
        Fault::Memory => 9,
        Fault::Full { .. } => 10,
        Fault::Journal => 11,
    }
}

/// The report of a fault.
pub fn fault_report(alloc: Global, fault: Fault) -> Result<Report, OutOfMemory>
    ensures { IfOk result (λ r. r ≡ fault_report fault) }
{
    let text = fault_text(alloc, fault)?;
    Ok(Report {
        text: Bytes::from_vec(text.into_bytes()),
        status: fault_status(fault),
    })
}
