//! What is held after a deployment that has succeeded.
//!
//! What an opening has to be is in `specs/Opening`. The laws are in `laws`; there is no other code.
#![tactic(auto)]

pub mod laws;
