//! What is left of a history when the service stops: its answers follow, and what was recorded of it is legal.
//!
//! `specs/Recorded` has what is recorded of a history in which a note was refused. The laws are in `laws`; there is no
//! other code.
#![tactic(auto)]

pub mod laws;
