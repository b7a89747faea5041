//! What a Bicep program says of desired states, renamed as its template has them.
//!
//! `specs/Numbers` says which number the resource of a symbol has in the template of its file, in both forms of
//! templates, and `specs/Template` when a template says what its program says. The laws are in `laws`; there is no
//! other code.
#![tactic(auto)]

pub mod laws;
