//! Deployments for tests: a template that a text states, where it is deployed, what is held there, and what is said of
//! its plan.
#![tactic(auto)]

pub mod deployment;
pub mod facts;
pub mod lines;
pub mod planning;
pub mod rows;
pub mod signs;
pub mod values;
