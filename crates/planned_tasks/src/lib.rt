//! What the tasks of a plan are by what is known at its start.
//!
//! The laws are in `laws`; there is no other code.
#![tactic(auto)]

pub mod laws;
