//! The desired state that a history leads to.
//!
//! The law is in `laws`; there is no other code.
#![tactic(auto)]

pub mod laws;
