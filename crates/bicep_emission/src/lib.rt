//! Which template expression a Bicep expression becomes, and that it means the same.
//!
//! `specs/Emitted` says which template expression an expression becomes, `specs/Alike` what it is that two readings
//! are alike, and `specs/Answered` when what a template looks at answers what a program reads. The laws are in `laws`;
//! there is no other code.
#![tactic(auto)]

pub mod laws;
