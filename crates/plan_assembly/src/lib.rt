//! The plan of a deployment, made from what is known at its start.
//!
//! `make_parts` lists the tasks of a sheet that was filled, with the keys of its puts and which task needs which, and
//! `assemble` makes the plan of them. `specs/Plans` says what a plan has. The law is in `laws`.
#![tactic(auto)]

mod assembly;
pub mod laws;
mod listing;
pub mod plan;

pub use assembly::{Parts, assemble, make_parts};
pub use plan::{Plan, Task};
