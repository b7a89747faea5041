//! What holds of all histories of a deployment.
//!
//! Tasks that are begun or done were ready (`specs/Past`); a history that has succeeded leaves room for one desired
//! state alone. The laws are in `laws`; there is no other code.
#![tactic(auto)]

pub mod laws;
