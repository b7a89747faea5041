//! Which task of a template needs which, and which of its program.
#![tactic(auto)]

pub mod laws;
