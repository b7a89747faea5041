//! What the body of an instance is, where it has a value.
//!
//! The law is in `laws`; there is no other code.
#![tactic(auto)]

pub mod laws;
