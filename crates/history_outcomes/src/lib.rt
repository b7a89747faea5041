//! The outcome of a deployment that has succeeded.
//!
//! What an outcome is is in `specs/Outcomes`. The law is in `laws`; there is no other code.
#![tactic(auto)]

pub mod laws;
