//! What the declarations of a Bicep file become depends on its symbols, on its declarations, on which variables have an
//! entry, and on the outputs of the files of the program.
//!
//! `specs/Agreeing` says when files agree in these. The laws are in `laws`; there is no other code.
#![tactic(auto)]

pub mod laws;
