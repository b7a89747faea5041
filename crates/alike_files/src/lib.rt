//! What a template has for a file it has for each file that is alike.
//!
//! A caller may rely on `specs/Alike`, `specs/Rest` and the laws. There is no other code.
#![tactic(auto)]

pub mod laws;
