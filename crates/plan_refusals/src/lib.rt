//! Why a deployment has no plan, by what is known at its start.
//!
//! `specs/Refusals` says when a cell refuses, `specs/Keys` when two instances have one key. The laws are in `laws`;
//! there
//! is no other code.
#![tactic(auto)]

pub mod laws;

pub use plan_tasks::key_at;
