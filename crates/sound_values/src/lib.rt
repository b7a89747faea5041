//! Values of a Bicep program without faults are those that `emitted_trees` speaks of.
//!
//! The laws are in `laws`; there is no other code.
#![tactic(auto)]

pub mod laws;
