//! The declarations of a Bicep file without faults are those whose emission is proved to mean the same.
//!
//! A caller may rely on `laws`. `specs/Values` says which values of a file are sound, and `specs/Few` which files have
//! texts with few holes. There is no other code.
#![tactic(auto)]

pub mod laws;
