//! Which symbols of a Bicep file read state, which variables have an entry, and what is mentioned through variables.
//!
//! A caller may rely on `specs/States` and `specs/Names`: whether an expression, a variable or a name reads state, on
//! `specs/Entries`: which variables have an entry, on `specs/Through`: what a declaration mentions through variables,
//! and on `laws`.
#![tactic(auto)]

pub mod laws;

pub use bicep_circles::symbol_links;
