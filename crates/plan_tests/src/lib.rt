//! Examples of what is planned, computed from the definitions.
#![tactic(auto)]

pub mod examples;
