//! What the template of a Bicep file has for each of its parts.
//!
//! `specs/Values` says when a value of a template is what is written for a tree, and `specs/Files` when a template is
//! that of a program, scope by scope. There is no other code.
#![tactic(auto)]

pub mod laws;
