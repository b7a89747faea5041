//! What holds of each world that is a desired state of a program or, with its cells renamed, of its template.
//!
//! `specs/Facts` has the facts. The law is in `laws`; there is no other code.
#![tactic(auto)]

pub mod laws;
