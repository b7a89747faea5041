//! The template that is emitted for a program means what the program means.
//!
//! A caller may rely on `specs/Programs` and on the laws. There is no other code.
#![tactic(auto)]

pub mod laws;
