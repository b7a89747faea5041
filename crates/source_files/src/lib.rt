//! The files of a program that is read, as their meaning has them.
//!
//! A caller may rely on `specs/Sources` and the laws. There is no other code.
#![tactic(auto)]

pub mod laws;
