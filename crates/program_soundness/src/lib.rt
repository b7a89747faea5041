//! The values of checked Bicep programs are of their types.
//!
//! A caller may rely on `laws`. `specs/Sound` says what is proved of a file of a checked program, `specs/Parts` which
//! parts a file has, and what their places take. What is supposed of the entries of the file is in `bicep_soundness`.
#![tactic(auto)]

pub mod laws;
