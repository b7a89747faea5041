//! Histories of the deployments of programs.
//!
//! A caller may rely on `specs/Starts` and the laws. There is no other code.
#![tactic(auto)]

pub mod laws;
