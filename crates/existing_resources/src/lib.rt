//! Existing resources of a template in the second form.
//!
//! A caller may rely on `existing`: it returns the existing resource of a template that an existing resource of a Bicep
//! file becomes, as `specs/Existing` says, or finds no memory.
#![tactic(auto)]

mod heads;

pub use heads::existing;
