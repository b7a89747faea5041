//! The values of a Bicep file outside of expressions mean the same in its template.
//!
//! A caller may rely on `laws`. `specs/Meaning` says when a value means the same. There is no other code.
#![tactic(auto)]

pub mod laws;
