//! What a plan is at the start of its deployment.
//!
//! The laws are in `laws`; there is no other code.
#![tactic(auto)]

pub mod laws;
