//! The values of Bicep expressions are of their types.
//!
//! A caller may rely on `laws`. `specs/Sound` says what is proved of an expression that has a type, `specs/Entries`
//! what is supposed of the entries of its file.
#![tactic(auto)]

pub mod laws;
