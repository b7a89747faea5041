//! Why a deployment has no plan, found in a sheet that was filled.
//!
//! `line_fault` says why there is no plan for a line, and `circle_fault` which cells wait for one another.
#![tactic(auto)]

mod breaking;
mod circle;
mod lines;

pub use circle::circle_fault;
pub use lack_faults::element_fault;
pub use lines::line_fault;
