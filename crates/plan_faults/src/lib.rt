//! Why a deployment has no plan.
//!
//! `specs/Faults` says when each `PlanFault` is true.
#![tactic(auto)]

pub mod fault;

pub use fault::PlanFault;
