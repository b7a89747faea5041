//! What Bicep values become in a template outside of expressions, and that they mean the same.
//!
//! `specs/Templates` has JSON with expressions in it, `specs/EmittedTrees` says which a value becomes, and
//! `specs/Written` how it is written. The laws are in `laws`; there is no other code.
#![tactic(auto)]

pub mod laws;
