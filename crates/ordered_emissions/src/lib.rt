//! What the declarations of a Bicep file become in templates, where they are taken one after another.
//!
//! `specs/Orders` says what an order of the declarations is, and `specs/Known` what declarations become where only some
//! of them are known. The laws are in `laws`; there is no other code.
#![tactic(auto)]

pub mod laws;
