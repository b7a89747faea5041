//! The plan of a deployment, as its histories have it.
//!
//! `specs/Planned` makes of a plan what histories are of. The laws are in `laws`; there is no other code.
#![tactic(auto)]

pub mod laws;

pub use plan_assembly::{Plan, Task};
