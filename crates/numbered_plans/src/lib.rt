//! The tasks of a plan have numbers.
//!
//! The law is in `laws`; there is no other code.
#![tactic(auto)]

pub mod laws;
