//! Why a scope cannot be entered or left at the end of a deployment.
//!
//! `first_fault` returns the fault of the first parameter or variable of a scope that has no value, and `output_fault`
//! that of the first output. `circle_lack` returns what parameters and variables that wait for one another read
//! besides. `specs/Faults` says what is returned.
#![tactic(auto)]

pub mod circles;
pub mod entries;
pub mod outputs;
mod paths;
mod values;

pub use scope_outputs::{body, keeping, offering, settling, telling};
