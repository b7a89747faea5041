//! Bicep programs that are read and checked are those whose templates are proved to mean the same.
//!
//! A caller may rely on `laws`: what `load` of `bicep_program` and `check` of `bicep_types` ensure gives what
//! `emitted_programs` requires of a program. `specs/Files` says which files the program has. There is no other code.
#![tactic(auto)]

pub mod laws;
