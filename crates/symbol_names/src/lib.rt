//! The names of the symbols of a file in which no name is given twice.
//!
//! The law is in `laws`. There is no other code.
#![tactic(auto)]

pub mod laws;
