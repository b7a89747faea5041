//! What Bicep values become outside of expressions, with a table of all declarations of a file.
//!
//! `specs/Filled` says what such a table has, and `specs/Same` when expressions become the same. The laws are in
//! `laws`; there is no other code.
#![tactic(auto)]

pub mod laws;

pub use declared_table::Table;
