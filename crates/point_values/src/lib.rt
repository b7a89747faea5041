//! What is known at a point of a deployment without what undone tasks give.
//!
//! `specs/Seen` says what such a table is. The laws are in `laws`; there is no other code.
#![tactic(auto)]

pub mod laws;
