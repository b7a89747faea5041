//! That what the rows of a point have is seen at that point of a deployment.
//!
//! `specs/Steps` says what may be added to what became known. The laws are in `laws`; there is no other code.
#![tactic(auto)]

pub mod laws;
