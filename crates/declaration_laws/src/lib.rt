//! The template expressions that the declarations of a Bicep file become mean what the declarations mean.
//!
//! `specs/Sound` says what a file without faults has, and `specs/Standing` when what declarations become stands for
//! what they mean. The laws are in `laws`; there is no other code.
#![tactic(auto)]

pub mod laws;
