//! What holds of the template expressions that the declarations of a Bicep file become.
//!
//! `specs/Holes` has expressions with holes for the item and the index of a loop, and `specs/Same` says when
//! declarations become the same. The laws are in `laws`; there is no other code.
#![tactic(auto)]

pub mod laws;
