//! A template of a Bicep program means what the program means.
//!
//! `specs/Sound` says what a program without faults has, and `specs/Given` when parameters of a template are bound to
//! what is given for those of its program. The laws are in `laws`; there is no other code.
#![tactic(auto)]

pub mod laws;
