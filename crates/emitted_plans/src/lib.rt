//! The plan of a template, by the tasks and needs of its program.
//!
//! The laws are in `laws`. There is no other code.
#![tactic(auto)]

pub mod laws;
