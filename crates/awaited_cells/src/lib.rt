//! Which parameters, variables and outputs a value of a task may wait for.
//!
//! `specs/Awaited` says which an expression of a scope may see. The laws are in `laws`; there is no other code.
#![tactic(auto)]

pub mod laws;
