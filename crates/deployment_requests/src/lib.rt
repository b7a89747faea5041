//! What is asked of a deployment beside its template, and which plans are of it.
//!
//! `specs/Requests.antt` has the definitions. The law is in `laws`; there is no other code.
#![tactic(auto)]

pub mod laws;
