//! The names in template expressions of Bicep expressions are names of the grammar of template expressions.
//!
//! `specs/Words` says which names a Bicep file has. The law is in `laws`; there is no other code.
#![tactic(auto)]

pub mod laws;
