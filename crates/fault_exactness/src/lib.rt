//! Which faults are true of no deployment that has a plan.
//!
//! `specs/Exact` says what nothing refuses by the table of a start. The laws are in `laws`; there is no other code.
#![tactic(auto)]

pub mod laws;
