//! Whether a filled sheet has all values that a plan needs.
//!
//! `find_refused` finds the first line for which there is no plan. `specs/Refused` says which lines these are. The law
//! is in `laws`.
#![tactic(auto)]

pub mod laws;
mod refused;

pub use refused::{find_refused, is_asked};
