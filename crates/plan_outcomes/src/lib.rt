//! The outcome of a deployment of a plan that nothing refuses.
//!
//! `specs/PlanOutcomes` has what holds of it. The laws are in `laws`; there is no other code.
#![tactic(auto)]

pub mod laws;
