//! No name in a file of a Bicep program without faults is read as anything else in a template.
//!
//! A caller may rely on `laws`: what `check` of `bicep_types` ensures gives that a file is placed, as `specs/Placed`
//! says. There is no other code.
#![tactic(auto)]

pub mod laws;
