//! What a command prints, and the status with which the program ends.
//!
//! A caller may rely on the exact line of each fault and of a refusal, and on what an output has written of a report.
//! `specs/Faults.antt` has the lines and the statuses, `specs/Reports.antt` says what an output has written.
#![tactic(auto)]

mod faults;
mod printing;
mod refusal;
mod report;

pub use faults::{Fault, fault_report};
pub use printing::{print, print_out_of_memory};
pub use refusal::refusal_report;
pub use report::Report;
