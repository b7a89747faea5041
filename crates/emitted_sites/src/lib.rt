//! What expressions of a template look at has what the cells of its program have.
//!
//! `specs/Sites` says what is looked at in a template and in its program. The laws are in `laws`; there is no other
//! code.
#![tactic(auto)]

pub mod laws;
