//! What the declarations of a Bicep file become in a template where expressions use them, and the laws on ids.
//!
//! `specs/Declared` says what they become. The laws are in `laws`; there is no other code.
#![tactic(auto)]

pub mod laws;
