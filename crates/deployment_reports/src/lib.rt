//! What is printed of how a deployment has ended, and the status with which the program ends.
//!
//! A caller may rely on the exact text of each ending. `specs/Sayings.antt` says what is said of an ending,
//! `specs/Lines.antt` in which order outputs come, and `specs/Reports.antt` which status an ending has.
#![tactic(auto)]

mod dropping;
pub mod laws;
mod lines;
mod names;
mod reporting;
mod sayings;

pub use lines::{OutputLine, with_outputs};
pub use reporting::report;
