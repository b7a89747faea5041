//! What the declarations of a Bicep file depend on, and which task of a program needs which.
//!
//! `specs/Dependencies` says which resources and modules a declaration depends on, `specs/Tasks` which tasks a program
//! has, and `specs/Needs` which of them needs which. There is no other code.
#![tactic(auto)]

pub mod laws;
