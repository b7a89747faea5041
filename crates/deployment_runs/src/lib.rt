//! A deployment is run: its board deals jobs to seats that work side by side, until it has ended.
//!
//! A caller may rely on a legal history of the board's plan, on a true ending, and on the calls of each seat's provider:
//! they are the Begins with the seat's number, in order. `specs/Runs.antt` says so.
#![tactic(auto)]

mod fault;
pub mod laws;
mod running;

pub use fault::RunFault;
pub use running::run_to_end;
