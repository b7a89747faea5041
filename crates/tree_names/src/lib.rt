//! The JSON that Bicep values become in a template has names of template expressions.
//!
//! A caller may rely on `laws`. `specs/Words` says which values have such names, and `specs/Names` which JSON. There is
//! no other code.
#![tactic(auto)]

pub mod laws;
