//! A tree of a template without expressions and loops has its literal value.
//!
//! The law is in `laws`; there is no other code.
#![tactic(auto)]

pub mod laws;
