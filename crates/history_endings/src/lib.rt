//! How the histories of a deployment end.
//!
//! The law is in `laws`; there is no other code.
#![tactic(auto)]

pub mod laws;
