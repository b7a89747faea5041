//! The outputs of a deployment that has succeeded.
//!
//! All is known at the end of it, and the outputs of its root are those of its outcome. The laws are in `laws`; there
//! is no other code.
#![tactic(auto)]

pub mod laws;
