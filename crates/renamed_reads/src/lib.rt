//! Which cells are read in renamed worlds.
//!
//! The laws are in `laws`; there is no other code.
#![tactic(auto)]

pub mod laws;
